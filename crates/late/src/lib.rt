// The late frame: for a build that the check refuses 29, the bytes of a legal script in which a job of the named task is late.
#![tactic(auto)]

ghost use Rattle.std.specs.Prelude.{◌≡◌};
ghost use Rattle.late_find.specs.Found.{NamedLate};
ghost use Rattle.late.specs.Shown.{late_task, ShowsScript, ShowsLate};

use model::{Build, BuildCause, CallCause, LateCause, Order, Refusal, Release};

// The task that an answer names late, if it is 29.
fn late_task(answer: Result<u32, Refusal>) -> Option<usize>
    ensures { result ≡ late_task answer }
{
    match answer {
        Err(Refusal::OfBuild(BuildCause::Late(task))) => Some(usize::from(task)),
        _ => None,
    }
}

// The script's bytes where it has few enough records and there is room: 64, 12.
fn show_script(order: &Order, build: &Build, task: usize, out: &mut [u8]) -> Result<u32, Refusal>
    requires { NamedLate order.now build.now task }
    ensures { ShowsScript order.now build.now task out.old result out.new }
{
    let times = late_find::late_times(order, build, task);
    let records = comings_out::count(order, &times) as usize;
    if Release::MOST < records {
        return Err(Refusal::OfLate(LateCause::ManyRecords));
    }
    let size = Release::BYTES * records;
    if out.len() < size {
        return Err(Refusal::OfCall(CallCause::Output));
    }
    comings_out::put_script(order, &times, records, out);
    Ok(size as u32)
}

// A script that shows the late job: the order's 1 to 10, 63 where the check's one answer is not 29, 64, 12.
pub fn late(order: &[u8], build: &[u8], out: &mut [u8]) -> Result<u32, Refusal>
    ensures { ShowsLate order.now build.now out.old result out.new }
{
    let read = order::read(order)?;
    let checked = inspect::check(order, build);
    let task = late_task(checked).ok_or(Refusal::OfLate(LateCause::NotLate))?;
    let header = build::read_build_header(build);
    let taken = build::take_build(build, header);
    show_script(&read, &taken.build, task, out)
}
