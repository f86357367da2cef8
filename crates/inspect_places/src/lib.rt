// 24: partitions that have processors, all of the order's, and none of an earlier partition's.
#![tactic(auto)]

ghost use Rattle.std.specs.Prelude.{◌≡◌, false, not, ◌&&◌, ◌||◌, ℕ, ◌+◌, ◌≤◌, ◌<◌, ◌^◌, leb, length, get_or};
ghost use Rattle.laws.specs.Every.{every};
ghost use Rattle.laws.specs.Joined.{listed};
ghost use Rattle.model.specs.Limits.{most_partitions, most_processors, place_of};
ghost use Rattle.model.specs.Processors.{processor_of};
ghost use Rattle.model.specs.Rules.{first_broken, given};
ghost use Rattle.inspect_places.specs.Rules.{has_processor, place_rules};

use model::{Build, BuildCause, Order, Partition, Refusal};

// One flag a processor.
const FLAGS: usize = Order::MOST_PROCESSORS as usize;

// None of its processors is taken.
fn all_free(place: Partition, taken: &[bool; FLAGS]) -> bool
    requires { place.first + place.volume ≤ most_processors }
    ensures { result ≡ every (λ k. not (get_or taken.now (processor_of place k) false)) place.volume }
{
    let first = place.first as usize;
    let volume = place.volume as usize;
    let own = &taken[first..first + volume];
    own.iter().all(|flag| !*flag)
}

// Its processors are taken too.
fn take_all(place: Partition, taken: &mut [bool; FLAGS])
    requires fits { place.first + place.volume ≤ most_processors }
    requires one_a_processor { length taken.old ≡ most_processors }
    ensures { taken.new ≡ listed (λ x. get_or taken.old x false || has_processor place x) most_processors }
{
    let first = place.first as usize;
    let volume = place.volume as usize;
    taken[first..first + volume].fill(true);
}

// Volume 0, past M, or a processor that is taken.
fn partition_right(processors: u32, place: Partition, taken: &[bool; FLAGS]) -> bool
    requires few { processors ≤ most_processors }
    requires volume_fits { place.volume < 2 ^ 7 }
    requires first_fits { place.first < 2 ^ 6 }
    ensures { result ≡ leb 1 place.volume && (leb (place.first + place.volume) processors && every (λ k. not (get_or taken.now (processor_of place k) false)) place.volume) }
{
    1 <= place.volume && place.first + place.volume <= processors && all_free(place, taken)
}

// All partitions, each against what the earlier ones have taken.
pub fn judge_places(order: &Order, build: &Build) -> Result<(), Refusal>
    requires processors { order.now.processors ≤ most_processors }
    requires partitions { build.now.partitions ≤ most_partitions }
    requires places { (p : ℕ) → p < build.now.partitions → ((place_of build.now p).volume < 2 ^ 7) × ((place_of build.now p).first < 2 ^ 6) }
    ensures { result ≡ given tt (first_broken 0 (place_rules order.now build.now)) }
{
    let mut taken = [false; FLAGS];
    for (i, place) in build.places[..build.partitions as usize].iter().enumerate() {
        if !partition_right(order.processors, *place, &taken) {
            return Err(Refusal::OfBuild(BuildCause::PartitionPlace(i as u16)));
        }
        take_all(*place, &mut taken);
    }
    Ok(())
}
