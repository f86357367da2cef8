// A set of processors written as a list of its runs: its length is counted first, so that a refusal writes nothing.
#![tactic(auto)]

ghost use Rattle.std.specs.Prelude.{◌≡◌, ◌++◌, ◌^◌, ◌≤◌, ◌<◌, length, drop};
ghost use Rattle.model.specs.Limits.{most_processors};
ghost use Rattle.put.specs.Put.{HasRoom};
ghost use Rattle.put.specs.Output.{HasRoomFor, Puts};
ghost use Rattle.list_form.specs.Items.{most_listed};
ghost use Rattle.list_form.specs.Runs.{begins_run, run_end};
ghost use Rattle.list_form.specs.ListText.{item_text, list_text};
ghost use Rattle.list_out.specs.Parts.{comma_at, run_text};
ghost use Rattle.list_out.specs.Write.{WritesList};

use model::{CallCause, Order, Refusal};
use put::{Output, digits_in};
use sets::has;

// A processor that is above all of a set: none is looked for from it on.
fn above_all(set: u64) -> u32
    ensures few { result ≤ most_processors }
    ensures above { set < 2 ^ result }
{
    Order::MOST_PROCESSORS - set.leading_zeros()
}

// Whether a run of a set begins at a processor.
fn begins_run(set: u64, processor: u32) -> bool
    requires { processor < most_processors }
    ensures { result ≡ begins_run set processor }
{
    has(set, processor) && (processor == 0 || !has(set, processor - 1))
}

// The last processor of the run that one is in: the ones above it, up to the first zero.
fn run_end(set: u64, first: u32) -> u32
    requires { first < most_processors }
    ensures { result ≡ run_end set first most_listed }
{
    first + (!((set >> first) / 2)).trailing_zeros()
}

// How many bytes an item is.
fn item_bytes(first: u32, last: u32) -> usize
    ensures counted { result ≡ length (item_text (record { first = first; last = last })) }
    ensures few { result ≤ 21 }
{
    let size = digits_in(first);
    if first != last {
        return size + 1 + digits_in(last);
    }
    size
}

// One for the comma before an item, none at the front.
fn comma_bytes(at: usize) -> usize
    ensures counted { result ≡ length (comma_at at) }
    ensures few { result ≤ 1 }
{
    usize::from(0 < at)
}

// How many bytes the run that begins at a processor is, none where none does.
fn run_bytes(at: usize, set: u64, processor: u32) -> usize
    requires { processor < most_processors }
    ensures counted { result ≡ length (run_text at set processor) }
    ensures few { result ≤ 22 }
{
    if !begins_run(set, processor) {
        return 0;
    }
    let last = run_end(set, processor);
    comma_bytes(at) + item_bytes(processor, last)
}

// How many bytes the list of a set is.
fn list_bytes(set: u64) -> usize
    ensures counted { result ≡ length (list_text set) }
    ensures few { result ≤ 1_408 }
{
    let mut bytes: usize = 0;
    for processor in 0..above_all(set) {
        bytes += run_bytes(bytes, set, processor);
    }
    bytes
}

// A comma, but at the front.
fn put_comma(out: &mut Output)
    requires { HasRoomFor (comma_at out.old.at) out.old }
    ensures same_reference { out.new.bytes.ghost_name ≡ out.old.bytes.ghost_name }
    ensures put { Puts (comma_at out.old.at) out.old out.new }
{
    if out.at == 0 {
        return;
    }
    out.put_byte(b',');
}

// A number alone, or a range.
fn put_item(out: &mut Output, first: u32, last: u32)
    requires { HasRoomFor (item_text (record { first = first; last = last })) out.old }
    ensures same_reference { out.new.bytes.ghost_name ≡ out.old.bytes.ghost_name }
    ensures put { Puts (item_text (record { first = first; last = last })) out.old out.new }
{
    out.put_numeral(first);
    if first == last {
        return;
    }
    out.put_byte(b'-');
    out.put_numeral(last);
}

// The run that begins at a processor, nothing where none does.
fn put_run(out: &mut Output, set: u64, processor: u32)
    requires below { processor < most_processors }
    requires room { HasRoomFor (run_text out.old.at set processor) out.old }
    ensures same_reference { out.new.bytes.ghost_name ≡ out.old.bytes.ghost_name }
    ensures put { Puts (run_text out.old.at set processor) out.old out.new }
{
    if !begins_run(set, processor) {
        return;
    }
    let last = run_end(set, processor);
    put_comma(out);
    put_item(out, processor, last);
}

// The runs of a set, from the front of out.
fn put_list(out: &mut [u8], set: u64)
    requires { HasRoom 0 (list_text set) out.old }
    ensures { out.new ≡ list_text set ++ drop (length (list_text set)) out.old }
{
    let mut output = Output::new(out);
    for processor in 0..above_all(set) {
        put_run(&mut output, set, processor);
    }
}

// A list from a set of processors: 12 alone.
pub fn write_list(set: u64, out: &mut [u8]) -> Result<u32, Refusal>
    ensures { WritesList set out.old result out.new }
{
    let size = list_bytes(set);
    if out.len() < size {
        return Err(Refusal::OfCall(CallCause::Output));
    }
    put_list(out, set);
    Ok(size as u32)
}
