// The turns of first fit: each places the task whose turn it is, or refuses it.
ghost use Rattle.std.specs.Prelude.{◌≡◌, ◌≤◌, ◌<◌};
ghost use Rattle.model.specs.Limits.{most_tasks, most_partitions, most_processors};
ghost use Rattle.model.specs.Rules.{WithinLimits};
ghost use Rattle.fitting.specs.Steps.{opening, told};
ghost use Rattle.fit.specs.Taking.{Taking, Taken, AllTaken};

use asked::Rows;
use fitting::Placing;
use model::{CallCause, Order, Refusal};
use placing::TaskLine;

// A new partition for the task if so many processors are left, else its refusal.
fn open_for(order: &Order, placing: &Placing, task: usize) -> Result<Placing, Refusal>
    requires { (task < most_tasks) × (placing.now.opened < most_partitions) × (placing.now.used ≤ order.now.processors) × (order.now.processors ≤ most_processors) }
    ensures { result ≡ told (opening order.now placing.now task) }
{
    let width = order.table[task].width;
    if order.processors - placing.used < width {
        return Err(Refusal::OfCall(CallCause::FirstFit(task as u16)));
    }
    Ok(placing.open_next(width).put(task, placing.opened))
}

// The turn of one task.
fn take_turn(
    order: &Order,
    table: &Rows,
    placing: &Placing,
    line: &mut TaskLine,
) -> Result<Placing, Refusal>
    requires { Taking order.now table.now placing.now line.old }
    ensures { Taken order.now placing.now line.old result line.new }
{
    let Some(task) = turns::next_task(order, &placing.homes) else {
        return Ok(*placing);
    };
    let deadline = table.deadlines[task];
    if let Some(home) = line.lowest_accepting(table, task, placing.opened) {
        line.seat(home, deadline, task);
        return Ok(placing.put(task, home));
    }
    line.results.worsts[task] = table.costs[task];
    line.seat(placing.opened, deadline, task);
    open_for(order, placing, task)
}

// A turn for each task, or until one is refused; the line that they come to stand in.
pub fn take_turns(order: &Order, line: &mut TaskLine) -> Result<Placing, Refusal>
    requires { WithinLimits order.now }
    ensures { AllTaken order.now result line.new }
{
    let table = roster::row_table(*order);
    let mut placing = Placing::nothing();
    *line = TaskLine::empty();
    for _ in 0..order.tasks {
        placing = take_turn(order, &table, &placing, line)?;
    }
    Ok(placing)
}
