// Runs cases that the second program wrote: a line each with the answer, and all that the output then holds.
#![tactic(auto)]

ghost use Rattle.std.specs.Prelude.{◌≤◌, length};

use show::read_full;
use std::io;
use std::io::Read;

// What the output holds before a call.
const BYTE: u8 = 0xA5;

const WORD: u32 = 0xA5A5_A5A5;

const SET: u64 = 0xA5A5_A5A5_A5A5_A5A5;

// Room for orders, builds, texts, lists and scripts that are too long by some, and for outputs that are longer than needed.
const MOST_BYTES: usize = 512;

const MOST_TEXT: usize = 2_048;

const MOST_ROWS: usize = 64;

const MOST_SCRIPT: usize = 6_400;

const MOST_TICKS: usize = 1_280;

const MOST_SETS: usize = 256;

// The most cases in one input.
const MOST_CASES: u32 = 65_536;

// A number of an output, printed with all its hexadecimal digits.
trait Number: Copy {
    fn put(self, rt: &impl Print) -> io::Result<()>;
}

impl Number for u8 {
    fn put(self, rt: &impl Print) -> io::Result<()> {
        print!(rt; " {self:02x}")
    }
}

impl Number for u32 {
    fn put(self, rt: &impl Print) -> io::Result<()> {
        print!(rt; " {self:08x}")
    }
}

impl Number for u64 {
    fn put(self, rt: &impl Print) -> io::Result<()> {
        print!(rt; " {self:016x}")
    }
}

// Number, place and count out of the one word.
fn show_answer(rt: &impl Print, call: &[u8], word: u64) -> io::Result<()> {
    rt.write_all(call)?;
    print!(rt;
        " {} {} {}",
        word % 65_536,
        word / 65_536 % 65_536,
        word / 4_294_967_296
    )
}

// The answer, then all that the output holds.
fn show_case<T: Number>(rt: &impl Print, call: &[u8], word: u64, out: &[T]) -> io::Result<()> {
    show_answer(rt, call, word)?;
    for number in out {
        number.put(rt)?;
    }
    println!(rt;)
}

// 0 past the end of the input.
fn next_byte(input: &mut impl Read) -> u8 {
    let mut byte = [0u8; 1];
    read_full(input, &mut byte);
    byte[0]
}

// Byte by byte: a terminal's input may go on behind an end.
fn next<const N: usize>(input: &mut impl Read) -> [u8; N] {
    let mut bytes = [0u8; N];
    for i in 0..N {
        bytes[i] = next_byte(input);
    }
    bytes
}

fn next_word(input: &mut impl Read) -> u32 {
    u32::from_be_bytes(next(input))
}

// A length, then so much of the room; none of it where there is less.
fn next_room<'a, T>(input: &mut impl Read, room: &'a mut [T]) -> &'a mut [T]
    ensures { length result.now ≤ length room.old }
{
    let size = usize::from(u16::from_be_bytes(next(input)));
    if size <= room.len() {
        &mut room[..size]
    } else {
        &mut room[..0]
    }
}

// A length, then so many bytes; only those that are there.
fn next_bytes<'a>(input: &mut impl Read, room: &'a mut [u8]) -> &'a [u8]
    ensures { length result.now ≤ length room.old }
{
    let bytes = next_room(input, room);
    let size = read_full(input, bytes);
    &bytes[..size]
}

// A length, then so many numbers of four bytes.
fn next_column<'a>(input: &mut impl Read, room: &'a mut [u32]) -> &'a [u32]
    ensures { length result.now ≤ length room.old }
{
    let column = next_room(input, room);
    for number in column.iter_mut() {
        *number = next_word(input);
    }
    column
}

fn read_case(rt: &impl Print, input: &mut impl Read) -> io::Result<()> {
    let mut room = [0u8; MOST_BYTES];
    let order = next_bytes(input, &mut room);
    let mut numbers = [WORD; jefkantu::ORDER_NUMBERS];
    let word = jefkantu::jefkantu_read_order(order, &mut numbers);
    show_case(rt, b"read", word, &numbers)
}

fn write_case(rt: &impl Print, input: &mut impl Read) -> io::Result<()> {
    let processors = next_word(input);
    let mut m = [0u32; MOST_ROWS];
    let widths = next_column(input, &mut m);
    let mut t = [0u32; MOST_ROWS];
    let periods = next_column(input, &mut t);
    let mut d = [0u32; MOST_ROWS];
    let deadlines = next_column(input, &mut d);
    let mut c = [0u32; MOST_ROWS];
    let runs = next_column(input, &mut c);
    let mut room = [BYTE; MOST_BYTES];
    let out = next_room(input, &mut room);
    let word = jefkantu::jefkantu_write_order(processors, widths, periods, deadlines, runs, out);
    show_case(rt, b"write", word, out)
}

fn plan_case(rt: &impl Print, input: &mut impl Read) -> io::Result<()> {
    let mut orders = [0u8; MOST_BYTES];
    let order = next_bytes(input, &mut orders);
    let mut room = [BYTE; MOST_BYTES];
    let out = next_room(input, &mut room);
    let word = jefkantu::jefkantu_plan(order, out);
    show_case(rt, b"plan", word, out)
}

fn check_case(rt: &impl Print, input: &mut impl Read) -> io::Result<()> {
    let mut orders = [0u8; MOST_BYTES];
    let order = next_bytes(input, &mut orders);
    let mut builds = [0u8; MOST_BYTES];
    let build = next_bytes(input, &mut builds);
    let word = jefkantu::jefkantu_check(order, build);
    show_case::<u8>(rt, b"check", word, &[])
}

fn run_case(rt: &impl Print, input: &mut impl Read) -> io::Result<()> {
    let mut orders = [0u8; MOST_BYTES];
    let order = next_bytes(input, &mut orders);
    let mut builds = [0u8; MOST_BYTES];
    let build = next_bytes(input, &mut builds);
    let mut scripts = [0u8; MOST_SCRIPT];
    let script = next_bytes(input, &mut scripts);
    let mut room = [WORD; MOST_TICKS];
    let out = next_room(input, &mut room);
    let word = jefkantu::jefkantu_run(order, build, script, out);
    show_case(rt, b"run", word, out)
}

fn read_text_case(rt: &impl Print, input: &mut impl Read) -> io::Result<()> {
    let processors = next_word(input);
    let mut texts = [0u8; MOST_TEXT];
    let text = next_bytes(input, &mut texts);
    let mut room = [BYTE; MOST_BYTES];
    let out = next_room(input, &mut room);
    let word = jefkantu::jefkantu_read_text(processors, text, out);
    show_case(rt, b"read_text", word, out)
}

fn write_text_case(rt: &impl Print, input: &mut impl Read) -> io::Result<()> {
    let mut orders = [0u8; MOST_BYTES];
    let order = next_bytes(input, &mut orders);
    let mut room = [BYTE; MOST_TEXT];
    let out = next_room(input, &mut room);
    let word = jefkantu::jefkantu_write_text(order, out);
    show_case(rt, b"write_text", word, out)
}

fn write_list_case(rt: &impl Print, input: &mut impl Read) -> io::Result<()> {
    let set = u64::from_be_bytes(next(input));
    let mut room = [BYTE; MOST_BYTES];
    let out = next_room(input, &mut room);
    let word = jefkantu::jefkantu_write_list(set, out);
    show_case(rt, b"write_list", word, out)
}

fn read_list_case(rt: &impl Print, input: &mut impl Read) -> io::Result<()> {
    let mut texts = [0u8; MOST_TEXT];
    let text = next_bytes(input, &mut texts);
    let mut set = SET;
    let word = jefkantu::jefkantu_read_list(text, &mut set);
    show_case(rt, b"read_list", word, &[set])
}

fn partition_sets_case(rt: &impl Print, input: &mut impl Read) -> io::Result<()> {
    let mut orders = [0u8; MOST_BYTES];
    let order = next_bytes(input, &mut orders);
    let mut builds = [0u8; MOST_BYTES];
    let build = next_bytes(input, &mut builds);
    let mut room = [SET; MOST_SETS];
    let out = next_room(input, &mut room);
    let word = jefkantu::jefkantu_partition_sets(order, build, out);
    show_case(rt, b"partition_sets", word, out)
}

fn late_case(rt: &impl Print, input: &mut impl Read) -> io::Result<()> {
    let mut orders = [0u8; MOST_BYTES];
    let order = next_bytes(input, &mut orders);
    let mut builds = [0u8; MOST_BYTES];
    let build = next_bytes(input, &mut builds);
    let mut room = [BYTE; MOST_SCRIPT];
    let out = next_room(input, &mut room);
    let word = jefkantu::jefkantu_late(order, build, out);
    show_case(rt, b"late", word, out)
}

// Whether there was a case; its first byte names the operation.
fn next_case(rt: &impl Print, input: &mut impl Read) -> io::Result<bool> {
    match u8::from_be_bytes(next(input)) {
        1 => read_case(rt, input)?,
        2 => write_case(rt, input)?,
        3 => plan_case(rt, input)?,
        4 => check_case(rt, input)?,
        5 => run_case(rt, input)?,
        6 => read_text_case(rt, input)?,
        7 => write_text_case(rt, input)?,
        8 => write_list_case(rt, input)?,
        9 => read_list_case(rt, input)?,
        10 => partition_sets_case(rt, input)?,
        11 => late_case(rt, input)?,
        _ => return Ok(false),
    }
    Ok(true)
}

fn main(rt: HostRuntime) -> io::Result<()> {
    let mut input = rt.stdin();
    for _ in 0..MOST_CASES {
        if !next_case(&rt, &mut input)? {
            break;
        }
    }
    Ok(())
}
