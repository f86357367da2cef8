// "A reader that holds the order's bytes takes its fields front to back."
ghost use Rattle.std.specs.Prelude.{◌≡◌, ◌≤◌};
ghost use Rattle.order.specs.Taken.{TakesField};

use bits::Cursor;

// The order's bytes, and the bit at which its next field begins.
#[derive(Clone, Copy)]
pub struct OrderReader<'a> {
    pub order: &'a [u8],
    pub at: usize,
}

impl OrderReader<'_> {
    // The field of so many bits; the reader moves past it.
    pub fn take(&mut self, width: usize) -> u32
        requires { (self.old.at ≤ 1_000_000) × (width ≤ 32) }
        ensures taken { TakesField self.old.order.now self.old.at width result self.new.at }
        ensures order { self.new.order ≡ self.old.order }
    {
        let taken = Cursor { at: self.at }.take(self.order, width);
        self.at = taken.next.at;
        taken.value
    }
}
