// 20 to 23, in turn, and the build that was read.
#![tactic(auto)]

ghost use Rattle.std.specs.Prelude.{◌≡◌, ◌≤◌};
ghost use Rattle.model.specs.Limits.{most_tasks};
ghost use Rattle.inspect_layout.specs.Rules.{header_matches, LaysOut};

use build::BuildHeader;
use model::{Build, BuildCause, Order, Refusal};

// 21: one refusal for all its causes.
#[tactic(auto, unfolding(crate::specs::Rules::header_matches))]
fn header_matches(order: &Order, header: BuildHeader) -> bool
    ensures { result ≡ header_matches order.now header }
{
    header.version == 1
        && header.processors == order.processors
        && header.tasks == order.tasks
        && (1..=Build::MOST_PARTITIONS as u32).contains(&header.partitions)
}

// The build's bytes against an order that was read; 23 and the build in one pass.
#[tactic(auto, unfolding(model::specs::Rules::first_broken, model::specs::Rules::given, crate::specs::Rules::build_layout_rules))]
pub fn judge_layout(order: &Order, build: &[u8]) -> Result<Build, Refusal>
    requires { order.now.tasks ≤ most_tasks }
    ensures { LaysOut order.now build.now result }
{
    if build.len() < Build::HEADER_BYTES {
        return Err(Refusal::OfBuild(BuildCause::BuildShort));
    }
    let header = build::read_build_header(build);
    if !header_matches(order, header) {
        return Err(Refusal::OfBuild(BuildCause::BuildMismatch));
    }
    if build.len() != Build::bytes(header.partitions as usize, header.tasks as usize) {
        return Err(Refusal::OfBuild(BuildCause::BuildLength));
    }
    let taken = build::take_build(build, header);
    if !taken.clear {
        return Err(Refusal::OfBuild(BuildCause::BuildSpare));
    }
    Ok(taken.build)
}
