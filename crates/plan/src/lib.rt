// The planner: from an order's bytes to its build's bytes, or the first refusal.
#![tactic(auto)]

ghost use Rattle.build.specs.Build.{FieldsFit};
ghost use Rattle.plan.specs.Plan.{PutsBuild, Plans};

use model::{Build, CallCause, Refusal};

// A build, where there is room for it.
fn put_build(build: Build, out: &mut [u8]) -> Result<u32, Refusal>
    requires { FieldsFit build }
    ensures { PutsBuild build out.old result out.new }
{
    let size = Build::bytes(build.partitions as usize, build.tasks as usize);
    if out.len() < size {
        return Err(Refusal::OfCall(CallCause::Output));
    }
    build_out::write_build(build, out);
    Ok(size as u32)
}

// An order's build by first fit: the order's 1 to 10, then 11, then 12.
pub fn plan(order: &[u8], out: &mut [u8]) -> Result<u32, Refusal>
    ensures { Plans order.now out.old result out.new }
{
    let order = order::read(order)?;
    let build = fit::first_fit(order)?;
    put_build(build, out)
}
