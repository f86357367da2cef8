// What is asked by a tick, and when each member is released next; then the same by a later tick.
ghost use Rattle.std.specs.Prelude.{◌≡◌, ℕ, ◌+◌, ◌*◌, ◌/◌, ◌≤◌, leb, length, get_or};
ghost use Rattle.laws.specs.Joined.{overlaid};
ghost use Rattle.laws.specs.Sums.{only, sum, least};
ghost use Rattle.model.specs.Limits.{most_tasks};
ghost use Rattle.asked.specs.Rows.{RowsFit, cost_at, asked_by};
ghost use Rattle.asked.specs.Steps.{far, due_after, onward, Dues, DuesBefore};

use crate::Rows;
use model::Order;

// All that is asked, and the first release to come.
#[derive(Clone, Copy)]
pub struct Step {
    pub all: u64,
    pub next: u32,
}

// The releases of a task by w: most often one, which spares the division.
pub fn releases_by(period: u32, w: u32) -> u32
    requires { (1 ≤ period) × (w ≤ 2_000_000) }
    ensures { result ≡ w / period + 1 }
{
    if w < period {
        return 1;
    }
    w / period + 1
}

// By w, with each member's next release.
pub fn begin(rows: &Rows, count: usize, w: u32, due: &mut [u32; Order::MOST_TASKS]) -> Step
    requires { RowsFit rows.now count × (w ≤ 2_000_000) × (length due.old ≡ most_tasks) }
    ensures all { result.all ≡ asked_by rows.now count w }
    ensures next { result.next ≡ least far (due_after rows.now w) count }
    ensures dues { due.new ≡ overlaid (due_after rows.now w) count due.old }
{
    let mut all: u64 = 0;
    let mut next: u32 = 4_000_000;
    for r in 0..count {
        let releases = releases_by(rows.periods[r], w);
        let then = releases * rows.periods[r];
        all += u64::from(releases) * u64::from(rows.costs[r]);
        due[r] = then;
        next = next.min(then);
    }
    Step { all, next }
}

// One where a release has come by w, else none: no branch, so that all rows go at once.
fn has_come(due: u32, w: u32) -> u32
    ensures { result ≡ only (leb due w) 1 }
{
    u32::from(due <= w)
}

// One release more of each member whose next one has come by w.
fn advance(rows: &Rows, count: usize, w: u32, due: &mut [u32; Order::MOST_TASKS]) -> Step
    requires { RowsFit rows.now count × Dues due.old count }
    ensures all { result.all ≡ sum (λ i. only (leb (get_or due.old i 0) w) 1 * cost_at rows.now i) count }
    ensures next { result.next ≡ least far (onward rows.now due.old w) count }
    ensures dues { due.new ≡ overlaid (onward rows.now due.old w) count due.old }
{
    let mut all: u32 = 0;
    let mut next: u32 = 4_000_000;
    for r in 0..count {
        let more = has_come(due[r], w);
        let then = due[r] + more * rows.periods[r];
        all += more * rows.costs[r];
        due[r] = then;
        next = next.min(then);
    }
    Step {
        all: u64::from(all),
        next,
    }
}

// From an earlier tick on to w: by one release of each at most, else anew.
pub fn go_on(
    rows: &Rows,
    count: usize,
    all: u64,
    w: u32,
    due: &mut [u32; Order::MOST_TASKS],
) -> Step
    requires { RowsFit rows.now count × (w ≤ 2_000_000) × DuesBefore rows.now count all w due.old }
    ensures all { result.all ≡ asked_by rows.now count w }
    ensures next { result.next ≡ least far (due_after rows.now w) count }
    ensures dues { due.new ≡ overlaid (due_after rows.now w) count due.old }
{
    let step = advance(rows, count, w, due);
    if w < step.next {
        return Step {
            all: all + step.all,
            next: step.next,
        };
    }
    begin(rows, count, w, due)
}
