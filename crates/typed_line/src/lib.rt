// A line of the order form: `m;T;D;C` and a line feed.
#![tactic(auto)]

ghost use Rattle.std.specs.Prelude.{◌≡◌, drop};
ghost use Rattle.form.specs.Lines.{numbers_fit};
ghost use Rattle.typed_line.specs.Taken.{TakesLine};

use model::Task;
use typed::{FieldEnd, MOST_TYPED, Reader};

// The line at which the reader stands, each number as far as it matters.
pub fn take_line(reader: &mut Reader) -> Option<Task>
    ensures line { TakesLine (drop reader.old.at reader.old.text.now) reader.old.at result reader.new.at }
    ensures text { reader.new.text ≡ reader.old.text }
{
    let width = reader.take_number()?;
    let period = reader.take_time(FieldEnd::Semicolon)?;
    let deadline = reader.take_time(FieldEnd::Semicolon)?;
    let run = reader.take_time(FieldEnd::LineFeed)?;
    Some(Task {
        width,
        period,
        deadline,
        run,
    })
}

// 51: whether no number is over the largest that is typed.
#[tactic(auto, unfolding(form::specs::Lines::numbers_fit))]
pub fn numbers_fit(task: Task) -> bool
    ensures { result ≡ numbers_fit task }
{
    task.width <= MOST_TYPED
        && task.period <= MOST_TYPED
        && task.deadline <= MOST_TYPED
        && task.run <= MOST_TYPED
}
