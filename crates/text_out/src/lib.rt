// The text of an order, with a point and two decimals: its length is counted first, so that a refusal writes nothing.
#![tactic(auto)]

ghost use Rattle.std.specs.Prelude.{◌≡◌, ◌∷◌, ◌++◌, ◌≤◌, length, drop};
ghost use Rattle.model.specs.Limits.{most_tasks};
ghost use Rattle.form.specs.Bytes.{semicolon};
ghost use Rattle.form.specs.Written.{time_text, line_text, order_text};
ghost use Rattle.put.specs.Put.{HasRoom};
ghost use Rattle.put.specs.Output.{HasRoomFor, Puts};
ghost use Rattle.text_out.specs.Write.{WritesText};

use model::{CallCause, Order, Refusal, Task};
use put::{Output, digits_in};

// A semicolon, then a time.
fn put_time(out: &mut Output, ticks: u32)
    requires { HasRoomFor (semicolon ∷ time_text ticks) out.old }
    ensures same_reference { out.new.bytes.ghost_name ≡ out.old.bytes.ghost_name }
    ensures put { Puts (semicolon ∷ time_text ticks) out.old out.new }
{
    out.put_byte(b';');
    out.put_numeral(ticks / 100);
    out.put_byte(b'.');
    out.put_digits(2, ticks);
}

fn put_line(out: &mut Output, task: Task)
    requires { HasRoomFor (line_text task) out.old }
    ensures same_reference { out.new.bytes.ghost_name ≡ out.old.bytes.ghost_name }
    ensures put { Puts (line_text task) out.old out.new }
{
    out.put_numeral(task.width);
    put_time(out, task.period);
    put_time(out, task.deadline);
    put_time(out, task.run);
    out.put_byte(b'\n');
}

// A line for each task, from the front of out.
fn put_lines(out: &mut [u8], order: &Order)
    requires few { order.now.tasks ≤ most_tasks }
    requires room { HasRoom 0 (order_text order.now) out.old }
    ensures { out.new ≡ order_text order.now ++ drop (length (order_text order.now)) out.old }
{
    let mut output = Output::new(out);
    // By place: that a table behind & has 32 tasks is no known fact, so its front is not proved to be there.
    for line in 0..order.tasks as usize {
        put_line(&mut output, order.table[line]);
    }
}

// How many bytes a semicolon and a time are.
fn time_bytes(ticks: u32) -> usize
    ensures counted { result ≡ length (semicolon ∷ time_text ticks) }
    ensures few { result ≤ 14 }
{
    4 + digits_in(ticks / 100)
}

fn line_bytes(task: Task) -> usize
    ensures counted { result ≡ length (line_text task) }
    ensures few { result ≤ 53 }
{
    digits_in(task.width)
        + time_bytes(task.period)
        + time_bytes(task.deadline)
        + time_bytes(task.run)
        + 1
}

// How many bytes the text of an order is.
fn text_bytes(order: &Order) -> usize
    requires { order.now.tasks ≤ most_tasks }
    ensures counted { result ≡ length (order_text order.now) }
    ensures few { result ≤ 1_696 }
{
    let mut bytes: usize = 0;
    for i in 0..order.tasks as usize {
        bytes += line_bytes(order.table[i]);
    }
    bytes
}

// Text from an order's bytes: its 1 to 10, then 12.
pub fn write_text(order: &[u8], out: &mut [u8]) -> Result<u32, Refusal>
    ensures { WritesText order.now out.old result out.new }
{
    let read = order::read(order)?;
    let size = text_bytes(&read);
    if out.len() < size {
        return Err(Refusal::OfCall(CallCause::Output));
    }
    put_lines(out, &read);
    Ok(size as u32)
}
