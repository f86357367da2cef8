// What a buyer typed: bytes by their kind, and a reader that takes digits, and times of milliseconds.
#![tactic(auto)]

mod reader;

ghost use Rattle.std.specs.Prelude.{◌≡◌, suc, ◌+◌, ◌-◌, ◌*◌, ◌≤◌};
ghost use Rattle.form.specs.Bytes.{zero_digit, IsDigit, is_digit, is_line_feed};
ghost use Rattle.form.specs.Numbers.{most_typed, capped};
ghost use Rattle.typed.specs.Kinds.{kind_of, end_kind};

pub use reader::Reader;

// "Each byte is decided by its range: digit, comma or point, semicolon, line feed, anything else."
#[derive(Clone, Copy, Debug, PartialEq, Eq)]
pub enum Kind {
    Digit,
    Mark,
    Semicolon,
    LineFeed,
    Other,
}

// The largest number that is typed; ticks where it is a time.
pub const MOST_TYPED: u32 = 1_048_575;

// The byte that ends a field: a line feed the last of its line, a semicolon the others.
#[derive(Clone, Copy, Debug, PartialEq, Eq)]
pub enum FieldEnd {
    Semicolon,
    LineFeed,
}

impl FieldEnd {
    fn kind(self) -> Kind
        ensures { result ≡ end_kind self }
    {
        match self {
            FieldEnd::Semicolon => Kind::Semicolon,
            FieldEnd::LineFeed => Kind::LineFeed,
        }
    }
}

pub fn kind_of(byte: u8) -> Kind
    ensures { result ≡ kind_of byte }
{
    match byte {
        b'0'..=b'9' => Kind::Digit,
        b',' | b'.' => Kind::Mark,
        b';' => Kind::Semicolon,
        b'\n' => Kind::LineFeed,
        _ => Kind::Other,
    }
}

fn is_digit(byte: u8) -> bool
    ensures { result ≡ is_digit byte }
{
    kind_of(byte) == Kind::Digit
}

pub fn is_line_feed(byte: u8) -> bool
    ensures { result ≡ is_line_feed byte }
{
    kind_of(byte) == Kind::LineFeed
}

// A value with one digit more behind it; past the largest it stays one more than that.
fn with_digit(value: u32, digit: u8) -> u32
    requires few { value ≤ suc most_typed }
    requires is_digit { IsDigit digit }
    ensures { result ≡ capped (value * 10 + (digit - zero_digit)) }
{
    (value * 10 + u32::from(digit - b'0')).min(MOST_TYPED + 1)
}
