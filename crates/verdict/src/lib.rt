// The test of one member, over its row and those of the higher members before it.
#![tactic(auto)]

ghost use Rattle.std.specs.Prelude.{◌≡◌, None, ◌+◌, ◌-◌, ◌≤◌, min, ltb};
ghost use Rattle.asked.specs.Rows.{RowsFit, row_task, asked_by, whole};
ghost use Rattle.asked.specs.Lines.{line_in};
ghost use Rattle.asked.specs.Met.{met_by, UnmetBelow};
ghost use Rattle.verdict.specs.Tested.{TestedAs, window_of, is_there};

use asked::{Rows, WHOLE};
use model::Task;

// The worst response of a member that passes; and, whether it does or not, a tick before which its window does not close.
#[derive(Clone, Copy)]
pub struct Tested {
    pub worst: Option<u32>,
    pub last: u32,
}

impl Tested {
    pub fn failed(last: u32) -> Self
        ensures { result ≡ record { worst = None; last = last } }
    {
        Self { worst: None, last }
    }
}

// More is asked in every tick than the tick itself: no window closes.
pub fn overfull(rows: &Rows, count: usize, blocking: u32) -> bool
    requires { RowsFit rows.now count }
    ensures { result ≡ ltb whole ((line_in rows.now count 0 1_000_000).slope + min blocking 1) }
{
    let taken = asked::line_below(rows, count, 0, Task::HORIZON).slope;
    WHOLE < taken + u64::from(blocking.min(1))
}

// Where a window closes after a job that ends so: there, if no release comes before.
fn closing(rows: &Rows, count: usize, base: u32, end: u32, next: u32, limit: u32) -> Option<u32>
    requires { RowsFit rows.now count × (base ≤ 4_000_000) × (1 ≤ end) × (end ≤ 2_000_000) × (1 ≤ limit) × (limit ≤ 1_000_000) × UnmetBelow (asked_by rows.now count) base (end - 1) × (end ≤ next → base + asked_by rows.now count (end - 1) ≤ end) }
    ensures { result ≡ met_by (asked_by rows.now count) base (limit - 1) }
{
    if next < end {
        return asked::met(rows, count, u64::from(base), end - 1, limit - 1).found;
    }
    if limit < end {
        return None;
    }
    Some(end - 1)
}

// Job by job: its start in time, and whether the window closes before the next release. Each search goes on from the one before it.
fn jobs(rows: &Rows, rank: usize, blocking: u32, from: u32) -> Tested
    requires { RowsFit rows.now (rank + 1) × (blocking ≤ 1_000_000) × (from ≤ 2_000_000) × UnmetBelow (asked_by rows.now rank) (blocking + 1) from }
    ensures { TestedAs rows.now rank blocking result }
{
    let period = rows.periods[rank];
    let cost = rows.costs[rank];
    let deadline = rows.deadlines[rank];
    let mut base = blocking;
    let mut release: u32 = 0;
    let mut begin = from;
    let mut worst: u32 = 0;
    // No range: base, begin and release go on together, and the loop ends where the window closes.
    while release < Task::HORIZON {
        let due = release + deadline - cost;
        let search = asked::met(rows, rank, u64::from(base) + 1, begin, due);
        let Some(start) = search.found else {
            return Tested::failed(due + 1);
        };
        let end = start + cost;
        worst = worst.max(end - release);
        base += cost;
        release += period;
        begin = release.min(Task::HORIZON);
        if let Some(last) = closing(rows, rank, base, end, search.next, begin) {
            return Tested {
                worst: Some(worst),
                last,
            };
        }
    }
    Tested::failed(Task::HORIZON)
}

// The member of this rank, which does not start before from.
pub fn test(rows: &Rows, rank: usize, blocking: u32, from: u32) -> Tested
    requires { RowsFit rows.now (rank + 1) × (blocking ≤ 1_000_000) × (from ≤ 2_000_000) × UnmetBelow (asked_by rows.now rank) (blocking + 1) from }
    ensures { TestedAs rows.now rank blocking result }
{
    if overfull(rows, rank + 1, blocking) {
        return Tested::failed(Task::HORIZON);
    }
    jobs(rows, rank, blocking, from)
}

// Whether its window, which does not close before from, closes at all.
pub fn has_window(rows: &Rows, rank: usize, blocking: u32, from: u32) -> bool
    requires { RowsFit rows.now (rank + 1) × (blocking ≤ 1_000_000) × (from ≤ 2_000_000) × UnmetBelow (asked_by rows.now (rank + 1)) blocking from }
    ensures { result ≡ is_there (window_of (asked_by rows.now rank) blocking (row_task rows.now rank)) }
{
    asked::met(rows, rank + 1, u64::from(blocking), from, Task::HORIZON - 1)
        .found
        .is_some()
}
