// How first fit stands.
#![tactic(auto)]

ghost use Rattle.std.specs.Prelude.{◌≡◌, ◌+◌, ◌≤◌, ◌<◌};
ghost use Rattle.model.specs.Limits.{most_tasks, most_partitions, most_processors};
ghost use Rattle.fitting.specs.Steps.{nothing_placed, put as put_of, open_next};

use model::{Build, Order, Partition};

// Each task's partition, the opened partitions, their count, and the processors used.
#[derive(Clone, Copy)]
pub struct Placing {
    pub homes: [Option<u32>; Order::MOST_TASKS],
    pub places: [Partition; Build::MOST_PARTITIONS],
    pub opened: u32,
    pub used: u32,
}

impl Placing {
    // No task is placed, no partition is open.
    pub fn nothing() -> Self
        ensures { result ≡ nothing_placed }
    {
        Self {
            homes: [None; Order::MOST_TASKS],
            places: [Partition::zero(); Build::MOST_PARTITIONS],
            opened: 0,
            used: 0,
        }
    }

    // The task is put in the partition.
    pub fn put(mut self, task: usize, partition: u32) -> Self
        requires { task < most_tasks }
        ensures { result ≡ put_of self task partition }
    {
        self.homes[task] = Some(partition);
        self
    }

    // The next partition is opened, with so many processors from the lowest unused one on.
    pub fn open_next(mut self, volume: u32) -> Self
        requires { (self.opened < most_partitions) × (self.used + volume ≤ most_processors) }
        ensures { result ≡ open_next self volume }
    {
        self.places[self.opened as usize] = Partition {
            volume,
            first: self.used,
        };
        self.opened += 1;
        self.used += volume;
        self
    }
}
