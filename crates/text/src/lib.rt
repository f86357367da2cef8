// The text of the order form as an order: its lines are counted, read one by one, and written as the order's bytes.
#![tactic(auto)]

ghost use Rattle.std.specs.Prelude.{◌≡◌, ◌≤◌, length};
ghost use Rattle.model.specs.Limits.{most_tasks};
ghost use Rattle.model.specs.Rules.{given};
ghost use Rattle.form.specs.Text.{finished_lines, is_unfinished, line_count};
ghost use Rattle.text.specs.Read.{ReadsText};
ghost use Rattle.text.specs.Taken.{typed_table, lines_answer};

use model::{Order, Refusal, Task, TextCause};
use typed::{Reader, is_line_feed};
use typed_line::{numbers_fit, take_line};

fn finished_lines(text: &[u8]) -> usize
    ensures counted { result ≡ finished_lines text.now }
    ensures few { result ≤ length text.now }
{
    // By a plain loop: a chain of filter and count took twice as long, since it is not turned into steps over many bytes.
    let mut lines: usize = 0;
    for i in 0..text.len() {
        if is_line_feed(text[i]) {
            lines += 1;
        }
    }
    lines
}

fn is_unfinished(text: &[u8]) -> bool
    ensures { result ≡ is_unfinished text.now }
{
    match text.last() {
        Some(byte) => !is_line_feed(*byte),
        None => false,
    }
}

// How many lines a text has, an unfinished last one counted.
fn count_lines(text: &[u8]) -> usize
    ensures { result ≡ line_count text.now }
{
    finished_lines(text) + usize::from(is_unfinished(text))
}

// So many lines, one after the other: 50 before 51 in each, and the table, zero past them.
fn take_lines(text: &[u8], lines: usize) -> Result<[Task; Order::MOST_TASKS], Refusal>
    requires { lines ≤ most_tasks }
    ensures { result ≡ given (typed_table text.now lines) (lines_answer text.now lines) }
{
    let mut table = [Task::zero(); Order::MOST_TASKS];
    let mut reader = Reader::new(text);
    for i in 0..lines {
        let Some(task) = take_line(&mut reader) else {
            return Err(Refusal::OfText(TextCause::LineShape(i as u16)));
        };
        if !numbers_fit(task) {
            return Err(Refusal::OfText(TextCause::LineNumber(i as u16)));
        }
        table[i] = task;
    }
    Ok(table)
}

// The order that a text has, as its bytes: 52, then line by line 50 and 51, then the writer's.
pub fn read_text(processors: u32, text: &[u8], out: &mut [u8]) -> Result<u32, Refusal>
    ensures { ReadsText processors text.now out.old result out.new }
{
    let lines = count_lines(text);
    if lines > Order::MOST_TASKS {
        return Err(Refusal::OfText(TextCause::LineCount));
    }
    let order = Order {
        processors,
        tasks: lines as u32,
        table: take_lines(text, lines)?,
    };
    order_out::write(order, out)
}
