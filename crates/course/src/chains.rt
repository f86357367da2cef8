// What the run reads, made once: each record's next of its task and of its partition, and each member's first record.
ghost use Rattle.std.specs.Prelude.{◌≡◌, length};
ghost use Rattle.model.specs.Limits.{most_records};
ghost use Rattle.course.specs.Ahead.{Grouped, LinedUp, HeadsFrom, heads_of};

use model::{Order, Release};
use stepper::NO_RECORD;

// Each group's first record, and into next each record's next of its group; NO_RECORD where there is none.
pub fn line_up(
    keys: &[u32; Release::MOST],
    records: usize,
    groups: &[u32; Order::MOST_TASKS],
    next: &mut [u16; Release::MOST],
) -> [u16; Order::MOST_TASKS]
    requires grouped { Grouped records keys.now groups.now }
    requires places { length next.old ≡ most_records }
    ensures { (so : Grouped records keys.now groups.now) → LinedUp so.group so.script result next.new }
{
    let mut first = [NO_RECORD; Order::MOST_TASKS];
    for i in (0..records).rev() {
        let g = groups[(keys[i] % 32) as usize] as usize;
        next[i] = first[g];
        first[g] = i as u16;
    }
    first
}

// By rank, the first record of each member of a partition.
pub fn oldest_of(
    first: &[u16; Order::MOST_TASKS],
    homes: &[u32; Order::MOST_TASKS],
    ranks: &[u32; Order::MOST_TASKS],
    tasks: usize,
    partition: u32,
) -> [u16; Order::MOST_TASKS]
    requires { HeadsFrom first.now homes.now ranks.now tasks }
    ensures { result ≡ heads_of first.now homes.now ranks.now partition tasks }
{
    let mut oldest = [0u16; Order::MOST_TASKS];
    for k in 0..tasks {
        if homes[k] == partition {
            oldest[ranks[k] as usize] = first[k];
        }
    }
    oldest
}
