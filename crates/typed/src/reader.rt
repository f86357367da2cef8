// What a buyer typed, taken front to back by a reader that holds the text and a place in it.
ghost use Rattle.std.specs.Prelude.{◌≡◌, ◌+◌, ◌≤◌, ◌<◌, length, get_or, drop};
ghost use Rattle.form.specs.Bytes.{is_mark};
ghost use Rattle.form.specs.Numbers.{value_of, is_number};
ghost use Rattle.form.specs.Times.{is_time, ticks_of};
ghost use Rattle.typed.specs.declared.FieldEnd.TheVariants.{Semicolon};
ghost use Rattle.typed.specs.Kinds.{kind_at};
ghost use Rattle.typed.specs.Taken.{ends_at, TakesDigits, TakesDecimals, TakesFormField};

use crate::{FieldEnd, Kind, MOST_TYPED, is_digit, kind_of, with_digit};

// The text, and the place in it at which what comes next begins.
#[derive(Clone, Copy)]
pub struct Reader<'a> {
    pub text: &'a [u8],
    pub at: usize,
    pub ghost inside: { at ≤ length text.now },
}

impl<'a> Reader<'a> {
    // Nothing is taken.
    pub fn new(text: &'a [u8]) -> Self
        ensures text { result.text ≡ text.entry }
        ensures at { result.at ≡ 0 }
    {
        Self { text, at: 0 }
    }

    // The kind of the byte here; past the end there is none.
    fn kind(&self) -> Kind
        ensures { result ≡ kind_at self.now.text.now self.now.at }
    {
        match self.text.get(self.at) {
            Some(byte) => kind_of(*byte),
            None => Kind::Other,
        }
    }

    // Whether a comma or point stands here.
    fn is_at_mark(&self) -> bool
        ensures { result ≡ is_mark (get_or self.now.text.now self.now.at 0) }
    {
        self.kind() == Kind::Mark
    }

    // Whether a field ends here, by the byte that is to end it.
    fn is_at_end(&self, end: FieldEnd) -> bool
        ensures { result ≡ ends_at end self.now.text.now self.now.at }
    {
        self.kind() == end.kind()
    }

    // The byte here is passed over.
    pub fn skip(&mut self)
        requires { self.old.at < length self.old.text.now }
        ensures at { self.new.at ≡ self.old.at + 1 }
        ensures text { self.new.text ≡ self.old.text }
    {
        self.at += 1;
    }

    // The digits from here on: their value, or one more than the largest where it is over.
    pub fn take_digits(&mut self) -> u32
        ensures digits { TakesDigits (drop self.old.at self.old.text.now) self.old.at result self.new.at }
        ensures text { self.new.text ≡ self.old.text }
    {
        let text = self.text;
        let mut value: u32 = 0;
        let mut next = self.at;
        // By while: as a `for` over a range it took 1.7 times as long for long rows of digits.
        while next < text.len() {
            let byte = text[next];
            if !is_digit(byte) {
                self.at = next;
                return value;
            }
            value = with_digit(value, byte);
            next += 1;
        }
        self.at = next;
        value
    }

    // A number, and a semicolon behind it.
    pub fn take_number(&mut self) -> Option<u32>
        ensures number { TakesFormField is_number value_of Semicolon (drop self.old.at self.old.text.now) self.old.at result self.new.at }
        ensures text { self.new.text ≡ self.old.text }
    {
        let from = self.at;
        let number = self.take_digits();
        if self.at == from || !self.is_at_end(FieldEnd::Semicolon) {
            return None;
        }
        self.skip();
        Some(number)
    }

    // The decimals of a time: nothing, or a comma or point and one or two digits.
    fn take_decimals(&mut self) -> Option<u32>
        ensures decimals { TakesDecimals (drop self.old.at self.old.text.now) self.old.at result self.new.at }
        ensures text { self.new.text ≡ self.old.text }
    {
        if !self.is_at_mark() {
            return Some(0);
        }
        self.skip();
        let from = self.at;
        let decimals = self.take_digits();
        match self.at - from {
            1 => Some(decimals * 10),
            2 => Some(decimals),
            _ => None,
        }
    }

    // A time in ticks, and behind it the end of its field.
    pub fn take_time(&mut self, end: FieldEnd) -> Option<u32>
        ensures time { TakesFormField is_time ticks_of end (drop self.old.at self.old.text.now) self.old.at result self.new.at }
        ensures text { self.new.text ≡ self.old.text }
    {
        let from = self.at;
        let whole = self.take_digits();
        if self.at == from {
            return None;
        }
        let decimals = self.take_decimals()?;
        if !self.is_at_end(end) {
            return None;
        }
        self.skip();
        Some((whole * 100 + decimals).min(MOST_TYPED + 1))
    }
}
