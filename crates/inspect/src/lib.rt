// The build check: any bytes as an order and any as a build are answered, by the first rule that is broken.
#![tactic(auto)]

ghost use Rattle.std.specs.Prelude.{◌≡◌};
ghost use Rattle.model.specs.Rules.{first_broken, given, WithinLimits};
ghost use Rattle.build.specs.Build.{build_at, FieldsFit};
ghost use Rattle.inspect.specs.Rules.{build_record_rules, build_rules, Checks, ChecksBoth};

use model::{Build, Order, Refusal};

// The order and the build that were read, where the check says yes.
#[derive(Clone, Copy)]
pub struct Accepted {
    pub order: Order,
    pub build: Build,
}

// 24 to 30: all partitions for 24, all tasks for 25, all for 26, then task by task 27 to 30.
fn judge_records(order: &Order, build: &Build) -> Result<(), Refusal>
    requires limits { WithinLimits order.now }
    requires fields { FieldsFit build.now }
    ensures { result ≡ given tt (first_broken 0 (build_record_rules order.now build.now)) }
{
    inspect_places::judge_places(order, build)?;
    inspect_members::judge_widths(order, build)?;
    let keys = inspect_members::line_up(order, build);
    inspect_members::judge_ranks(order, build, &keys)?;
    inspect_tests::judge_tests(order, build, &keys)
}

// 20 to 30, of an order that was read; and the build.
fn check_build(order: Order, build: &[u8]) -> Result<Build, Refusal>
    requires { WithinLimits order }
    ensures { result ≡ given (build_at build.now) (first_broken 0 (build_rules order build.now)) }
{
    let read = inspect_layout::judge_layout(&order, build)?;
    judge_records(&order, &read)?;
    Ok(read)
}

// The order's 1 to 10, then 20 to 30 of the build against that order; what was read goes on to the caller.
pub fn check_both(order: &[u8], build: &[u8]) -> Result<Accepted, Refusal>
    ensures { ChecksBoth order.now build.now result }
{
    let order = order::read(order)?;
    let build = check_build(order, build)?;
    Ok(Accepted { order, build })
}

pub fn check(order: &[u8], build: &[u8]) -> Result<u32, Refusal>
    ensures { Checks order.now build.now result }
{
    check_both(order, build)?;
    Ok(0)
}
