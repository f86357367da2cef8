// Sets of processors as 64-bit words, processor 0 the lowest bit.
#![tactic(auto)]

ghost use Rattle.std.specs.Prelude.{◌≡◌, ◌+◌, ◌≤◌, ◌<◌};
ghost use Rattle.model.specs.Limits.{most_processors};
ghost use Rattle.model.specs.Processors.{volume_of};
ghost use Rattle.sets.specs.Sets.{has, size_of_set, union, lowest_of, span, partition_set};

use model::{Order, Partition};

// Whether a processor is in a set.
pub fn has(set: u64, processor: u32) -> bool
    requires { processor < most_processors }
    ensures { result ≡ has set processor }
{
    (set >> processor) % 2 == 1
}

// How many processors are in a set.
pub fn size(set: u64) -> u32
    ensures { result ≡ size_of_set set }
{
    set.count_ones()
}

// The processors of either set.
pub fn union(one: u64, other: u64) -> u64
    ensures { result ≡ union one other }
{
    one | other
}

// So many processors from the first on.
pub fn span(first: u32, count: u32) -> u64
    requires { first + count ≤ most_processors }
    ensures { result ≡ span first count }
{
    if count == 0 {
        return 0;
    }
    (u64::MAX >> (Order::MOST_PROCESSORS - count)) << first
}

// The lowest processors of a set, so many.
pub fn lowest(set: u64, count: u32) -> u64
    ensures { result ≡ lowest_of set count }
{
    let mut chosen: u64 = 0;
    let mut below: u32 = 0;
    for processor in 0..Order::MOST_PROCESSORS {
        let there = has(set, processor);
        let taken = there && below < count;
        chosen = union(chosen, span(processor, u32::from(taken)));
        below += u32::from(there);
    }
    chosen
}

// The processors of a partition.
pub fn partition_set(place: Partition) -> u64
    requires { place.first + volume_of place ≤ most_processors }
    ensures { result ≡ partition_set place }
{
    span(place.first, place.volume)
}
