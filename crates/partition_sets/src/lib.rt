// The set of each partition of an accepted build.
#![tactic(auto)]

ghost use Rattle.std.specs.Prelude.{◌≡◌, ◌++◌, ◌+◌, ◌≤◌, ◌<◌, length, drop};
ghost use Rattle.partition_sets.specs.Given.{build_sets, PartitionsFit, GivesSets};

use model::{Build, CallCause, Refusal};
use sets::partition_set;

// The set of each partition into the front of out.
fn put_sets(build: &Build, out: &mut [u64])
    requires fit { PartitionsFit build.now }
    requires room { build.now.partitions ≤ length out.old }
    ensures { out.new ≡ build_sets build.now ++ drop build.now.partitions out.old }
{
    for i in 0..build.partitions as usize {
        out[i] = partition_set(build.places[i]);
    }
}

// The sets of a build's partitions: the check's refusals, then 12.
pub fn partition_sets(order: &[u8], build: &[u8], out: &mut [u64]) -> Result<u32, Refusal>
    ensures { GivesSets order.now build.now out.old result out.new }
{
    let accepted = inspect::check_both(order, build)?;
    let partitions = accepted.build.partitions;
    if out.len() < partitions as usize {
        return Err(Refusal::OfCall(CallCause::Output));
    }
    put_sets(&accepted.build, out);
    Ok(partitions)
}
