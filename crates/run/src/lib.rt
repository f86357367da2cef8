// The run: the check, then the script's refusals, then one finish tick per record.
#![tactic(auto)]

ghost use Rattle.inspect.specs.Claims.{AcceptedBuild};
ghost use Rattle.run.specs.Run.{RanScript, Ran};

use model::{Build, Order, Refusal, Release};

// 40 to 46 and the finish ticks, of an order and a build that were checked. Apart, so that the check's stack is free by then.
#[inline(never)]
fn run_checked(order: Order, build: Build, script: &[u8], out: &mut [u32]) -> Result<u32, Refusal>
    requires { AcceptedBuild order build }
    ensures { RanScript order build script.now out.old result out.new }
{
    let mut keys = [0u32; Release::MOST];
    let mut durations = [0u32; Release::MOST];
    let count = script::judge_script(order, script, out.len(), &mut keys, &mut durations)?;
    course::run_all(order, build, count as usize, &keys, &durations, out);
    Ok(count)
}

// Runs a release script through a build: the finish tick of each record, or the first refusal.
pub fn run(order: &[u8], build: &[u8], script: &[u8], out: &mut [u32]) -> Result<u32, Refusal>
    ensures { Ran order.now build.now script.now out.old result out.new }
{
    let accepted = inspect::check_both(order, build)?;
    // Only the front that can be counted is lent on.
    let places = out.len().min(script.len() / Release::BYTES);
    run_checked(accepted.order, accepted.build, script, &mut out[..places])
}
