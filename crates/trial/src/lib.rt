// The tests of a partition's members, each from what is known of those above it; and the trial of a newcomer.
#![tactic(auto)]

ghost use Rattle.std.specs.Prelude.{◌≡◌, ℕ, ◌+◌, ◌-◌, ◌≤◌, ◌<◌, length};
ghost use Rattle.laws.specs.Sums.{largest};
ghost use Rattle.model.specs.Limits.{most_tasks};
ghost use Rattle.asked.specs.Rows.{RowsFit, cost_at, asked_by, blocking_in};
ghost use Rattle.asked.specs.Met.{UnmetBelow};
ghost use Rattle.verdict.specs.Tested.{TestedAs};
ghost use Rattle.trial.specs.Known.{no_results, with_result, Apart, Bounds, TestedFrom, Shielded, OthersTested, KnownBefore, TriedAs};

use asked::Rows;
use model::Order;
use verdict::Tested;

// What the tests of the tasks gave, by number: a tick before which a task's window does not close, and its worst response.
#[derive(Clone, Copy)]
pub struct Results<Worst> {
    pub lasts: [u32; Order::MOST_TASKS],
    pub worsts: [Worst; Order::MOST_TASKS],
}

impl<Worst: Copy> Results<Worst> {
    // Before the first test, with the same worst response for all.
    pub fn none(worst: Worst) -> Self
        ensures { result ≡ no_results worst }
    {
        Self {
            lasts: [0; Order::MOST_TASKS],
            worsts: [worst; Order::MOST_TASKS],
        }
    }

    // What the test of a task gave.
    pub fn note(&mut self, number: usize, last: u32, worst: Worst)
        requires { number < most_tasks }
        ensures { self.new ≡ with_result self.old number last worst }
    {
        self.lasts[number] = last;
        self.worsts[number] = worst;
    }
}

// The largest cost from a rank on.
fn longest(rows: &Rows, from: usize, count: usize) -> u32
    requires { (from ≤ count) × (count ≤ most_tasks) }
    ensures { result ≡ largest (λ s. cost_at rows.now (from + s)) (count - from) }
{
    let mut most: u32 = 0;
    for r in from..count {
        most = most.max(rows.costs[r]);
    }
    most
}

// How long a member is blocked by those after it.
pub fn blocking(rows: &Rows, count: usize, rank: usize) -> u32
    requires { (rank < count) × (count ≤ most_tasks) }
    ensures { result ≡ blocking_in rows.now count rank }
{
    longest(rows, rank + 1, count).saturating_sub(1)
}

// A tick before which the member does not start: one before which a higher member's window does not close, if what the members between them ask makes up for its longer blocking.
fn head_start(
    rows: &Rows,
    keys: &[u32; Order::MOST_TASKS],
    count: usize,
    rank: usize,
    blocked: u32,
    lasts: &[u32; Order::MOST_TASKS],
) -> u32
    requires { (rank < count) × RowsFit rows.now count × (blocked ≡ blocking_in rows.now count rank) × Bounds rows.now keys.now count lasts.now }
    ensures { (result ≤ 2_000_000) × UnmetBelow (asked_by rows.now rank) (blocked + 1) result }
{
    let own = rows.costs[rank];
    let mut covered = blocked + 2;
    for higher in (0..rank).rev() {
        if own <= covered {
            return lasts[roster::number_in(keys[higher])];
        }
        covered += rows.costs[higher];
    }
    0
}

// The test of the member of a rank.
pub fn test_rank(
    rows: &Rows,
    keys: &[u32; Order::MOST_TASKS],
    count: usize,
    rank: usize,
    lasts: &[u32; Order::MOST_TASKS],
) -> Tested
    requires { (rank < count) × RowsFit rows.now count × Bounds rows.now keys.now count lasts.now }
    ensures { TestedAs rows.now rank (blocking_in rows.now count rank) result }
{
    let blocked = blocking(rows, count, rank);
    let from = head_start(rows, keys, count, rank, blocked, lasts);
    verdict::test(rows, rank, blocked, from)
}

// The members of ranks from one to before another, until one fails.
pub fn test_from(
    rows: &Rows,
    keys: &[u32; Order::MOST_TASKS],
    count: usize,
    from: usize,
    to: usize,
    results: &mut Results<u32>,
) -> bool
    requires { (from ≤ to) × (to ≤ count) × RowsFit rows.now count × Apart keys.now count × Bounds rows.now keys.now count results.old.lasts × (length results.old.worsts ≡ most_tasks) }
    ensures { TestedFrom rows.now keys.now count from to results.old result results.new }
{
    for rank in from..to {
        let tested = test_rank(rows, keys, count, rank, &results.lasts);
        let Some(worst) = tested.worst else {
            return false;
        };
        let number = roster::number_in(keys[rank]);
        results.note(number, tested.last, worst);
    }
    true
}

// The first rank from which on the newcomer blocks longer than others do.
fn first_blocked(rows: &Rows, count: usize, newcomer: usize) -> usize
    requires { (newcomer < count) × RowsFit rows.now count }
    ensures { (result ≤ newcomer) × ((h : ℕ) → h < result → Shielded rows.now count newcomer h) }
{
    let cost = rows.costs[newcomer];
    let mut other = longest(rows, newcomer + 1, count);
    for higher in (0..newcomer).rev() {
        if cost <= other {
            return higher + 1;
        }
        other = other.max(rows.costs[higher]);
    }
    0
}

// Those that a newcomer blocks longer, then those below it, until one fails.
fn test_others(
    rows: &Rows,
    keys: &[u32; Order::MOST_TASKS],
    count: usize,
    newcomer: usize,
    results: &mut Results<u32>,
) -> bool
    requires { (newcomer < count) × RowsFit rows.now count × Apart keys.now count × Bounds rows.now keys.now count results.old.lasts × (length results.old.worsts ≡ most_tasks) }
    ensures { OthersTested rows.now keys.now count newcomer results.old result results.new }
{
    let first = first_blocked(rows, count, newcomer);
    test_from(rows, keys, count, first, newcomer, results)
        && test_from(rows, keys, count, newcomer + 1, count, results)
}

// A newcomer among the members: it is tested first, then the others that it touches.
fn test_touched(
    rows: &Rows,
    keys: &[u32; Order::MOST_TASKS],
    count: usize,
    newcomer: usize,
    results: &mut Results<u32>,
) -> bool
    requires { (newcomer < count) × RowsFit rows.now count × KnownBefore rows.now keys.now count newcomer results.old }
    ensures { TriedAs rows.now keys.now count results.old result results.new }
{
    let tested = test_rank(rows, keys, count, newcomer, &results.lasts);
    let Some(worst) = tested.worst else {
        return false;
    };
    let number = roster::number_in(keys[newcomer]);
    let mut touched = *results;
    touched.note(number, tested.last, worst);
    if !test_others(rows, keys, count, newcomer, &mut touched) {
        return false;
    }
    *results = touched;
    true
}

// A newcomer among the members: where all ask for more than there is, the lowest fails, and none is tested.
pub fn tries(
    rows: &Rows,
    keys: &[u32; Order::MOST_TASKS],
    count: usize,
    newcomer: usize,
    results: &mut Results<u32>,
) -> bool
    requires { (newcomer < count) × RowsFit rows.now count × KnownBefore rows.now keys.now count newcomer results.old }
    ensures { TriedAs rows.now keys.now count results.old result results.new }
{
    !verdict::overfull(rows, count, 0) && test_touched(rows, keys, count, newcomer, results)
}
