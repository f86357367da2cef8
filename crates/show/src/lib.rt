// What the programs say: a planned order's build, or a refusal's number and place; and that an input cannot be read.
#![tactic(auto)]

ghost use Rattle.io.specs.Counts.{IsPrefixLen};

use build::BuildHeader;
use model::{Build, Member, Order, Partition, Refusal};
use std::io;
use std::io::Read;

fn show_partition(rt: &impl Print, number: usize, place: Partition) -> io::Result<()> {
    println!(rt; "part {number} {} {}", place.volume, place.first)
}

fn show_member(rt: &impl Print, number: usize, member: Member) -> io::Result<()> {
    println!(rt;
        "task {number} {} {} {}",
        member.partition, member.rank, member.response
    )
}

// A plan has no such build, and would not be cut short in silence.
fn show_overfull(rt: &impl Eprint) -> io::Result<()> {
    eprintln!(rt; "the build counts more than it may")
}

fn show_build(rt: &(impl Print + Eprint), bytes: &[u8]) -> io::Result<()> {
    let header = build::read_build_header(bytes);
    let partitions = header.partitions as usize;
    let tasks = header.tasks as usize;
    if partitions > Build::MOST_PARTITIONS || tasks > Order::MOST_TASKS {
        return show_overfull(rt);
    }
    let build = build::take_build(bytes, header).build;
    println!(rt;
        "build {} {} {}",
        header.processors, header.tasks, header.partitions
    )?;
    for (number, place) in build.places[..partitions].iter().enumerate() {
        show_partition(rt, number, *place)?;
    }
    for (number, member) in build.members[..tasks].iter().enumerate() {
        show_member(rt, number, *member)?;
    }
    Ok(())
}

pub fn show_refusal(rt: &impl Print, cause: Refusal) -> io::Result<()> {
    println!(rt; "refused {} {}", cause.number(), cause.place())
}

pub fn show_plan(rt: &(impl Print + Eprint), order: &[u8]) -> io::Result<()> {
    let mut bytes = [0u8; Build::MOST_BYTES];
    match plan::plan(order, &mut bytes) {
        Ok(_) => show_build(rt, &bytes),
        Err(cause) => show_refusal(rt, cause),
    }
}

// Reads until the bytes are full, the input ends or a read fails: how many are read.
pub fn read_full(input: &mut impl Read, bytes: &mut [u8]) -> usize
    ensures { IsPrefixLen result bytes.new }
{
    let mut done: usize = 0;
    // No range: a step is as long as what a read gave.
    while done < bytes.len() {
        match input.read(&mut bytes[done..]).unwrap_or(0) {
            0 => break,
            got => done += got,
        }
    }
    done
}

// Whether the input ends here; a read that fails or was broken off gives a short count too.
pub fn has_ended(input: &mut impl Read) -> bool {
    let mut more = [0u8; 1];
    matches!(input.read(&mut more), Ok(0))
}

// What could not be read is no order, so nothing is said of it on standard output.
pub fn show_unreadable(rt: &impl Eprint) -> io::Result<()> {
    eprintln!(rt; "standard input cannot be read")
}
