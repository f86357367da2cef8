// The run of a legal script, partition by partition: the finish tick of each record.
#![tactic(auto)]

mod chains;
mod turns;

ghost use Rattle.std.specs.Prelude.{◌≡◌, ◌++◌, ℕ, length, drop};
ghost use Rattle.model.specs.Limits.{most_records};
ghost use Rattle.finish.specs.Finish.{finish_ticks};
ghost use Rattle.course.specs.Course.{Runnable};

use chains::{line_up, oldest_of};
use model::{Build, Order, Release};
use std::array;
use stepper::{Machine, NO_RECORD};
use turns::Tables;

// Before tick 0.
fn begin(oldest: [u16; Order::MOST_TASKS], ahead: u16) -> Machine
    ensures { result ≡ record { tick = 0; waiting = 0; oldest = oldest; ahead = ahead; job = most_records; left = 0 } }
{
    Machine {
        tick: 0,
        waiting: 0,
        oldest,
        ahead,
        job: NO_RECORD,
        left: 0,
    }
}

pub fn run_all(
    order: Order,
    build: Build,
    records: usize,
    keys: &[u32; Release::MOST],
    durations: &[u32; Release::MOST],
    out: &mut [u32],
)
    requires { Runnable order build records keys.now durations.now (length out.old) }
    ensures { (so : Runnable order build records keys.now durations.now (length out.old)) → out.new ≡ finish_ticks order build so.script ++ drop records out.old }
{
    let tasks = order.tasks as usize;
    let homes = build.members.map(|member| member.partition);
    let ranks = build.members.map(|member| member.rank);
    // Each task is its own group.
    let own = array::from_fn(|k| k as u32);
    let mut next = [0u16; Release::MOST];
    let mut after = [0u16; Release::MOST];
    let oldest = line_up(keys, records, &own, &mut next);
    let first = line_up(keys, records, &homes, &mut after);
    let tables = Tables {
        keys,
        durations,
        ranks: &ranks,
        next: &next,
        after: &after,
    };
    for partition in 0..build.partitions {
        let heads = oldest_of(&oldest, &homes, &ranks, tasks, partition);
        tables.run(begin(heads, first[partition as usize]), out);
    }
}
