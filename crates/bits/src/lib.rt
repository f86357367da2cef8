// Fields of bits in bytes, most significant bit first: taken front to back by a cursor, and written.
#![tactic(auto)]

mod record;

ghost use Rattle.std.specs.Prelude.{◌≡◌, ◌++◌, ◌+◌, ◌*◌, ◌^◌, ◌≤◌, ◌<◌, length, get_or, drop};
ghost use Rattle.bits.specs.Field.{field};
ghost use Rattle.bits.specs.Layout.{packed};

pub use record::{Record, put_records};

// The next bit to take.
#[derive(Clone, Copy)]
pub struct Cursor {
    pub at: usize,
}

// A field taken, and the cursor past it.
#[derive(Clone, Copy)]
pub struct Taken {
    pub value: u32,
    pub next: Cursor,
}

// Past the end every byte is 0.
fn byte_at(s: &[u8], i: usize) -> u64
    ensures { (result ≡ get_or s.now i 0) × (result < 256) }
{
    u64::from(s.get(i).copied().unwrap_or(0))
}

// Some whole bytes as one number, zero past the end.
pub fn number_at(s: &[u8], from: usize, count: usize) -> u64
    requires { (from ≤ 131072) × (count ≤ 8) }
    ensures { result ≡ field s.now (8 * from) (8 * count) }
{
    let mut number: u64 = 0;
    for i in 0..count {
        number = number * 256 + byte_at(s, from + i);
    }
    number
}

// One more than the largest value of so many bits.
fn values(width: usize) -> u64
    requires { width ≤ 32 }
    ensures { (result ≡ 2 ^ width) × (0 < result) × (result ≤ 4_294_967_296) }
{
    1u64 << width
}

impl Cursor {
    // The field of so many bits at the cursor, and the cursor past it.
    pub fn take(self, s: &[u8], width: usize) -> Taken
        requires { (self.at ≤ 1_000_000) × (width ≤ 32) }
        ensures value { result.value ≡ field s.now self.at width }
        ensures past { result.next.at ≡ self.at + width }
    {
        let end = self.at + width;
        let from = self.at / 8;
        let count = end.div_ceil(8) - from;
        let past = 8 * (from + count) - end;
        let number = number_at(s, from, count);
        Taken {
            value: ((number >> past) % values(width)) as u32,
            next: Cursor { at: end },
        }
    }
}

// The lowest bytes of a number, most significant first, into the front of out.
pub fn put_number(out: &mut [u8], count: usize, number: u64)
    requires { count ≤ length out.old }
    ensures { out.new ≡ packed count number ++ drop count out.old }
{
    let mut left = number;
    for i in (0..count).rev() {
        out[i] = (left % 256) as u8;
        left /= 256;
    }
}
