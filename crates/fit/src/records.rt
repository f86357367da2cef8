// The build that first fit records: the partitions, and each task's partition, rank and worst response.
ghost use Rattle.std.specs.Prelude.{◌≡◌, ℕ};
ghost use Rattle.model.specs.Rules.{WithinLimits};
ghost use Rattle.fit.specs.Recorded.{FitsFirst};
ghost use Rattle.fit.specs.Taking.{Recording, RecordsOf};

use crate::taking;
use model::{Build, Member, Order, Refusal};
use placing::TaskLine;

// Each task's record, zero past them.
fn records_of(line: &TaskLine) -> [Member; Order::MOST_TASKS]
    requires { Recording line.now }
    ensures { (so : Recording line.now) → RecordsOf line.now so result }
{
    let mut members = [Member::zero(); Order::MOST_TASKS];
    let mut first = 0;
    let mut home = 0;
    for (place, key) in line.keys[..line.placed].iter().enumerate() {
        // where another partition begins
        if roster::home_in(*key) != home {
            first = place;
            home = roster::home_in(*key);
        }
        let number = roster::number_in(*key);
        members[number] = Member {
            partition: home,
            rank: (place - first) as u32,
            response: line.results.worsts[number],
        };
    }
    members
}

// The order's build by first fit, or the task that was refused.
pub fn first_fit(order: Order) -> Result<Build, Refusal>
    requires { WithinLimits order }
    ensures { FitsFirst order result }
{
    let mut line = TaskLine::empty();
    let placing = taking::take_turns(&order, &mut line)?;
    let places = placing.places;
    let members = records_of(&line);
    Ok(Build {
        processors: order.processors,
        tasks: order.tasks,
        partitions: placing.opened,
        places,
        members,
    })
}
