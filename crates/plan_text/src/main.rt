// Plans an order typed as text: M is the one argument, the text is on standard input. It prints what the printer does.
#![tactic(auto)]

use model::Order;
use std::env::{Env, FillError};
use std::io;
use std::io::Read;
use typed::Reader;

// One byte more than the longest text that is taken.
const MOST_READ: usize = 65_536;

// The longest argument that is taken.
const MOST_ARGUMENT: usize = 4_096;

fn show_usage(rt: &impl Eprint) -> io::Result<()> {
    eprintln!(rt; "usage: plan_text M < TEXT")
}

fn show_too_long(rt: &impl Eprint) -> io::Result<()> {
    eprintln!(rt; "standard input has more than 65,535 bytes")
}

fn plan_typed(rt: &(impl Print + Eprint), processors: u32, text: &[u8]) -> io::Result<()> {
    let mut order = [0u8; Order::MOST_BYTES];
    match text::read_text(processors, text, &mut order) {
        Ok(size) => show::show_plan(rt, &order[..size as usize]),
        Err(cause) => show::show_refusal(rt, cause),
    }
}

fn plan_input(
    rt: &(impl Print + Eprint),
    input: &mut impl Read,
    processors: u32,
) -> io::Result<()> {
    let mut text = [0u8; MOST_READ];
    let size = show::read_full(input, &mut text);
    if size == MOST_READ {
        show_too_long(rt)
    } else if show::has_ended(input) {
        plan_typed(rt, processors, &text[..size])
    } else {
        show::show_unreadable(rt)
    }
}

// Whether there is no such argument, not even an empty one.
fn lacks_argument(rt: &impl Env, number: usize) -> bool {
    let mut start = [0u8; 1];
    matches!(rt.arg(number, &mut start), Err(FillError::NotPresent))
}

// M is digits to its end; an argument that is missing or too long has no bytes here.
fn main(rt: HostRuntime) -> io::Result<()> {
    let mut argument = [0u8; MOST_ARGUMENT];
    let size = rt.arg(1, &mut argument).unwrap_or(0);
    let mut reader = Reader::new(&argument[..size]);
    let processors = reader.take_digits();
    if lacks_argument(&rt, 2) && size > 0 && reader.at == size {
        plan_input(&rt, &mut rt.stdin(), processors)
    } else {
        show_usage(&rt)
    }
}
