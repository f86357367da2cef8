// When each task comes in the late script: the blocker, the higher members' rows, and the first late job of the named task.
#![tactic(auto)]

ghost use Rattle.std.specs.Prelude.{◌≡◌, ◌-◌, ◌≤◌, ◌<◌, length};
ghost use Rattle.model.specs.Limits.{most_tasks};
ghost use Rattle.model.specs.Rules.{Sized, WithinLimits};
ghost use Rattle.demand.specs.Meaning.{FirstMetAt};
ghost use Rattle.demand.specs.Over.{start_over};
ghost use Rattle.asked.specs.Rows.{RowsFit, asked_by};
ghost use Rattle.inspect_members.specs.Line.{HomesFew};
ghost use Rattle.late_find.specs.Found.{KeysByNumber, above, longest_cost, blocker_of, is_longer, LongestBelow, HigherNumbers, StartsFrom, LateOver, FirstLateOver, coming_by, TimedBy, NamedLate, LateTimes};

use asked::Rows;
use comings_out::{Coming, Times};
use model::{Build, Order, Task};

// A lower member with the largest C: its number, and its C.
#[derive(Clone, Copy)]
pub struct Longest {
    pub number: usize,
    pub cost: u32,
}

// A job by number, and how long after the begin it starts.
#[derive(Clone, Copy)]
pub struct LateJob {
    pub number: u32,
    pub start: u32,
}

// What the times of all tasks follow from: the named task, the begin, the tick at which its late job comes, the one at which that job starts, and the blocker, if there is one.
#[derive(Clone, Copy)]
pub struct Late {
    pub named: usize,
    pub begin: u32,
    pub last: u32,
    pub start: u32,
    pub blocker: Option<usize>,
}

// The tasks' keys, each at its number.
fn keys_by_number(order: &Order, build: &Build) -> [u32; Order::MOST_TASKS]
    requires limits { WithinLimits order.now }
    requires homes { HomesFew order.now build.now }
    ensures { KeysByNumber order.now build.now order.now.tasks result }
{
    let mut keys = [0u32; Order::MOST_TASKS];
    for i in 0..order.tasks as usize {
        keys[i] = roster::key_of(build.members[i].partition, order.table[i].deadline, i);
    }
    keys
}

// Whether the one is a higher member of the other's partition.
fn is_above(one: u32, other: u32) -> bool
    ensures { result ≡ above one other }
{
    roster::home_in(one) == roster::home_in(other) && one < other
}

// A cost over that of the longest so far, or the first.
fn is_longer(cost: u32, longest: Option<Longest>) -> bool
    ensures { result ≡ is_longer cost longest }
{
    longest.is_none_or(|longest| longest.cost < cost)
}

// B: the blocker's C less 1.
fn blocking_of(longest: Option<Longest>) -> u32
    ensures { result ≡ longest_cost longest - 1 }
{
    longest.map_or(0, |longest| longest.cost.saturating_sub(1))
}

// The blocker, if there is one.
fn blocker_of(longest: Option<Longest>) -> Option<usize>
    ensures { result ≡ blocker_of longest }
{
    longest.map(|longest| longest.number)
}

// The lower member with the largest C, lowest number among equals.
fn longest_below(
    table: &Rows,
    keys: &[u32; Order::MOST_TASKS],
    tasks: usize,
    named: usize,
) -> Option<Longest>
    requires few { tasks ≤ most_tasks }
    requires known { named < tasks }
    ensures { LongestBelow table.now keys.now tasks named result }
{
    let mut longest: Option<Longest> = None;
    for i in 0..tasks {
        let cost = table.costs[i];
        if is_above(keys[named], keys[i]) && is_longer(cost, longest) {
            longest = Some(Longest { number: i, cost });
        }
    }
    longest
}

// The numbers of the higher members, in the front of a table of fixed size, and how many they are.
fn higher_of(
    keys: &[u32; Order::MOST_TASKS],
    tasks: usize,
    named: usize,
    numbers: &mut [u32; Order::MOST_TASKS],
) -> usize
    requires few { tasks ≤ most_tasks }
    requires known { named < tasks }
    requires places { length numbers.old ≡ most_tasks }
    ensures { HigherNumbers keys.now tasks named numbers.new result }
{
    let mut count: usize = 0;
    for i in 0..tasks {
        if is_above(keys[i], keys[named]) {
            numbers[count] = i as u32;
            count += 1;
        }
    }
    count
}

// Where a search that found nothing by a tick goes on to the start.
fn start_from(rows: &Rows, count: usize, base: u32, from: u32) -> u32
    requires rows_fit { RowsFit rows.now count }
    requires small { base ≤ 3_000_000 }
    requires near { from ≤ 2_000_000 }
    requires starts { StartsFrom (asked_by rows.now count) base from }
    ensures { FirstMetAt (start_over (asked_by rows.now count) base) 0 result }
{
    let search = asked::met(rows, count, u64::from(base) + 1, from, Task::HORIZON);
    search.found.unwrap()
}

// Job by job, each search from the end of the job before it, up to the first that is late.
fn late_job(rows: &Rows, count: usize, blocking: u32, task: Task) -> LateJob
    requires rows_fit { RowsFit rows.now count }
    requires small { blocking ≤ 1_000_000 }
    requires sized { Sized task }
    requires late { LateOver (asked_by rows.now count) blocking task }
    ensures { FirstLateOver (asked_by rows.now count) blocking task result.number result.start }
{
    let cost = task.cost();
    let mut base = blocking;
    let mut release: u32 = 0;
    let mut from: u32 = 0;
    let mut number: u32 = 0;
    // A walk by T, and by C, that ends at the late job: no range counts it.
    'jobs: loop {
        let due = release + task.deadline - cost;
        let search = asked::met(rows, count, u64::from(base) + 1, from, due);
        let Some(start) = search.found else {
            return LateJob {
                number,
                start: start_from(rows, count, base, due + 1),
            };
        };
        from = start + cost;
        base += cost;
        release += task.period;
        number += 1;
    }
}

// When a task comes: the named one and the higher members from the begin on, the blocker once at tick 0, another never.
fn comes(keys: &[u32; Order::MOST_TASKS], late: Late, task: usize) -> Option<Coming>
    requires known { task < most_tasks }
    requires named { late.named < most_tasks }
    ensures { result ≡ coming_by keys.now late task }
{
    let named = late.named;
    if task == named {
        return Some(Coming {
            first: late.begin,
            last: late.last,
        });
    }
    if is_above(keys[task], keys[named]) {
        return Some(Coming {
            first: late.begin,
            last: late.start,
        });
    }
    if late.blocker == Some(task) && 0 < late.begin {
        return Some(Coming { first: 0, last: 0 });
    }
    None
}

// When each task comes.
fn times_by(keys: &[u32; Order::MOST_TASKS], tasks: usize, late: Late) -> Times
    requires few { tasks ≤ most_tasks }
    requires named { late.named < most_tasks }
    ensures { TimedBy keys.now tasks late result }
{
    let mut times = [None; Order::MOST_TASKS];
    for i in 0..tasks {
        times[i] = comes(keys, late, i);
    }
    times
}

// When each task comes in the script that shows the named task late.
pub fn late_times(order: &Order, build: &Build, named: usize) -> Times
    requires { NamedLate order.now build.now named }
    ensures { LateTimes order.now build.now named result }
{
    let task = order.table[named];
    let tasks = order.tasks as usize;
    let keys = keys_by_number(order, build);
    let by_number = roster::row_table(*order);
    let longest = longest_below(&by_number, &keys, tasks, named);
    let blocking = blocking_of(longest);
    let mut numbers = [0u32; Order::MOST_TASKS];
    let mut rows = Rows::zero();
    let count = higher_of(&keys, tasks, named, &mut numbers);
    roster::fill_rows(&by_number, &numbers, count, &mut rows);
    let job = late_job(&rows, count, blocking, task);
    let begin = blocking.min(1);
    let late = Late {
        named,
        begin,
        last: begin + job.number * task.period,
        start: begin + job.start,
        blocker: blocker_of(longest),
    };
    times_by(&keys, tasks, late)
}
