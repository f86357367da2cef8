// The caller's output, and bytes put into it: one, digits, and a number in digits.
#![tactic(auto)]

ghost use Rattle.std.specs.Prelude.{◌≡◌, [], ◌∷◌, ◌≤◌};
ghost use Rattle.form.specs.Written.{last_digits, digits_in, numeral};
ghost use Rattle.put.specs.Output.{HasRoomFor, Puts};

// How many digits a number has. Each step divides by ten, so no range counts them.
pub fn digits_in(number: u32) -> usize
    ensures counted { result ≡ digits_in number }
    ensures few { result ≤ 10 }
{
    let mut digits: usize = 1;
    let mut left = number;
    while left >= 10 {
        left /= 10;
        digits += 1;
    }
    digits
}

// The caller's output, and how much of it is written: what is put next goes behind that.
#[derive(Drop)]
pub struct Output<'a> {
    pub bytes: &'a mut [u8],
    pub at: usize,
}

impl<'a> Output<'a> {
    // Nothing is written.
    pub fn new(bytes: &'a mut [u8]) -> Output<'a>
        ensures same_reference { result.bytes.ghost_name ≡ bytes.entry.ghost_name }
        ensures same_bytes { result.bytes.now ≡ bytes.old }
        ensures front { result.at ≡ 0 }
    {
        Output { bytes, at: 0 }
    }

    pub fn put_byte(&mut self, byte: u8)
        requires { HasRoomFor (byte ∷ []) self.old }
        ensures same_reference { self.new.bytes.ghost_name ≡ self.old.bytes.ghost_name }
        ensures put { Puts (byte ∷ []) self.old self.new }
    {
        self.bytes[self.at] = byte;
        self.at += 1;
    }

    // The last digits of a number, so many.
    pub fn put_digits(&mut self, digits: usize, number: u32)
        requires { HasRoomFor (last_digits digits number) self.old }
        ensures same_reference { self.new.bytes.ghost_name ≡ self.old.bytes.ghost_name }
        ensures put { Puts (last_digits digits number) self.old self.new }
    {
        let end = self.at + digits;
        let mut left = number;
        for place in (self.at..end).rev() {
            self.bytes[place] = b'0' + (left % 10) as u8;
            left /= 10;
        }
        self.at = end;
    }

    // A number in digits, none more than it has.
    pub fn put_numeral(&mut self, number: u32)
        requires { HasRoomFor (numeral number) self.old }
        ensures same_reference { self.new.bytes.ghost_name ≡ self.old.bytes.ghost_name }
        ensures put { Puts (numeral number) self.old self.new }
    {
        self.put_digits(digits_in(number), number);
    }
}
