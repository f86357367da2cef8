// Builds, their partitions and members, and the releases of a script.
ghost use Rattle.std.specs.Prelude.{◌≡◌, ◌≤◌};
ghost use Rattle.model.specs.Limits.{zero_partition, zero_member, empty_build};
ghost use Rattle.model.specs.Layouts.{build_length};

use crate::Order;

// So many processors from the first on.
#[derive(Clone, Copy, Debug, PartialEq, Eq)]
pub struct Partition {
    pub volume: u32,
    pub first: u32,
}

impl Partition {
    pub const BYTES: usize = 2;

    pub fn zero() -> Self
        ensures { result ≡ zero_partition }
    {
        Self {
            volume: 0,
            first: 0,
        }
    }
}

// A task in its partition, with its rank there and its worst response.
#[derive(Clone, Copy, Debug, PartialEq, Eq)]
pub struct Member {
    pub partition: u32,
    pub rank: u32,
    pub response: u32,
}

impl Member {
    pub const BYTES: usize = 4;

    pub fn zero() -> Self
        ensures { result ≡ zero_member }
    {
        Self {
            partition: 0,
            rank: 0,
            response: 0,
        }
    }
}

// A partition of processors and tasks, zero past its counts.
#[derive(Clone, Copy, Debug, PartialEq, Eq)]
pub struct Build {
    pub processors: u32,
    pub tasks: u32,
    pub partitions: u32,
    pub places: [Partition; Build::MOST_PARTITIONS],
    pub members: [Member; Order::MOST_TASKS],
}

impl Build {
    pub const MOST_PARTITIONS: usize = 32;

    pub const HEADER_BYTES: usize = 3;

    // The longest build.
    pub const MOST_BYTES: usize = Build::HEADER_BYTES
        + Partition::BYTES * Build::MOST_PARTITIONS
        + Member::BYTES * Order::MOST_TASKS;

    pub fn empty() -> Self
        ensures { result ≡ empty_build }
    {
        let place = Partition::zero();
        let member = Member::zero();
        Self {
            processors: 0,
            tasks: 0,
            partitions: 0,
            places: [place; Build::MOST_PARTITIONS],
            members: [member; Order::MOST_TASKS],
        }
    }

    // How many bytes a build of so many partitions and tasks has.
    pub fn bytes(partitions: usize, tasks: usize) -> usize
        requires { (partitions ≤ 127) × (tasks ≤ 63) }
        ensures { result ≡ build_length 1 partitions tasks }
    {
        Build::HEADER_BYTES + Partition::BYTES * partitions + Member::BYTES * tasks
    }
}

// A record of a script: at a tick, a job of a task, of a duration.
#[derive(Clone, Copy, Debug, PartialEq, Eq)]
pub struct Release {
    pub tick: u32,
    pub task: u32,
    pub duration: u32,
}

impl Release {
    pub const BYTES: usize = 6;

    pub const MOST: usize = 1024;

    // The longest script.
    pub const MOST_BYTES: usize = Release::BYTES * Release::MOST;
}
