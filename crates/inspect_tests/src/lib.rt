// 27 to 30: the response test of each task, and its recorded response.
#![tactic(auto)]

ghost use Rattle.std.specs.Prelude.{◌≡◌, ◌+◌, ◌≤◌, ◌<◌, ltb, length, None};
ghost use Rattle.model.specs.Limits.{most_tasks};
ghost use Rattle.model.specs.Rules.{first_broken, given, WithinLimits};
ghost use Rattle.asked.specs.Rows.{RowsFit};
ghost use Rattle.roster.specs.Keys.{home_in, key_at, run_from};
ghost use Rattle.trial.specs.Known.{Apart, Bounds};
ghost use Rattle.inspect_members.specs.Line.{LineOf};
ghost use Rattle.inspect_tests.specs.Rules.{test_rules};
ghost use Rattle.inspect_tests.specs.Results.{SomeLineup, last_above, TestedBelow, lowest_failing, worst_at, TestedRanks, TestedBefore, ResultsFor, FirstWrong, SomeTaskThere, TellsWindow, RanksRecorded};

use asked::Rows;
use model::{Build, BuildCause, Member, Order, Refusal};
use trial::Results;
use verdict::Tested;

// A partition tested: how many members it has, and the lowest number of a task that does not pass so far.
#[derive(Clone, Copy)]
pub struct TestedPart {
    pub size: usize,
    pub lowest: usize,
}

// What is kept for the member above one of a rank.
fn last_above(keys: &[u32; Order::MOST_TASKS], rank: usize, lasts: &[u32; Order::MOST_TASKS]) -> u32
    requires { rank < most_tasks }
    ensures { result ≡ last_above keys.now lasts.now rank }
{
    if 0 < rank {
        return lasts[roster::number_in(keys[rank - 1])];
    }
    0
}

// The test of a member, left out where the answer is that of a lower number: its window closes no earlier than the one above it.
fn test_below(
    rows: &Rows,
    keys: &[u32; Order::MOST_TASKS],
    count: usize,
    rank: usize,
    lowest: usize,
    lasts: &[u32; Order::MOST_TASKS],
) -> Tested
    requires { (rank < count) × RowsFit rows.now count × Bounds rows.now keys.now count lasts.now }
    ensures { TestedBelow rows.now keys.now count rank lowest result }
{
    if lowest <= roster::number_in(keys[rank]) {
        return Tested::failed(last_above(keys, rank, lasts));
    }
    trial::test_rank(rows, keys, count, rank, lasts)
}

// The lowest number of a task that does not pass, with one task more.
fn lowered(lowest: usize, number: usize, worst: Option<u32>) -> usize
    ensures { result ≡ lowest_failing lowest number worst }
{
    match worst {
        Some(_) => lowest,
        None => lowest.min(number),
    }
}

// The members of a partition, rank by rank, each from what is known of those above it; the lowest number of a task that does not pass.
fn test_members(
    rows: &Rows,
    keys: &[u32; Order::MOST_TASKS],
    count: usize,
    lowest: usize,
    results: &mut Results<Option<u32>>,
) -> usize
    requires { RowsFit rows.now count × Apart keys.now count × Bounds rows.now keys.now count results.old.lasts × (length results.old.worsts ≡ most_tasks) × (worst_at results.old.worsts lowest ≡ None) }
    ensures { TestedRanks rows.now keys.now count count lowest results.old result results.new }
{
    let mut failing = lowest;
    for rank in 0..count {
        let tested = test_below(rows, keys, count, rank, failing, &results.lasts);
        let number = roster::number_in(keys[rank]);
        results.note(number, tested.last, tested.worst);
        failing = lowered(failing, number, tested.worst);
    }
    failing
}

// The partition that begins at a place of the line.
fn test_part(
    table: &Rows,
    keys: &[u32; Order::MOST_TASKS],
    tasks: usize,
    first: usize,
    lowest: usize,
    results: &mut Results<Option<u32>>,
) -> TestedPart
    requires { (first < tasks) × SomeLineup table.now keys.now tasks × TestedBefore table.now keys.now tasks first lowest results.old }
    ensures { (0 < result.size) × TestedBefore table.now keys.now tasks (first + result.size) result.lowest results.new }
{
    let mut own = [0u32; Order::MOST_TASKS];
    let mut rows = Rows::zero();
    let size = roster::members_of(keys, tasks, first, roster::home_in(keys[first]), &mut own);
    roster::fill_rows(table, &own, size, &mut rows);
    let failing = test_members(&rows, &own, size, lowest, results);
    TestedPart {
        size,
        lowest: failing,
    }
}

// Partition by partition: the worst response of each task up to the lowest that does not pass, if the task passes.
fn test_all(table: &Rows, keys: &[u32; Order::MOST_TASKS], tasks: usize) -> Results<Option<u32>>
    requires { SomeLineup table.now keys.now tasks }
    ensures { ResultsFor table.now keys.now tasks result }
{
    let mut results = Results::none(None);
    let mut lowest = Order::MOST_TASKS;
    let mut first: usize = 0;
    // No range: each step is as long as a partition.
    while first < tasks {
        let part = test_part(table, keys, tasks, first, lowest, &mut results);
        lowest = part.lowest;
        first += part.size;
    }
    results
}

// The first place of a partition in the line.
fn first_of(keys: &[u32; Order::MOST_TASKS], tasks: usize, home: u32) -> usize
    requires { tasks ≤ most_tasks }
    ensures { result ≡ run_from (λ s. ltb (home_in (key_at keys.now s)) home) 0 tasks }
{
    for first in 0..tasks {
        if home <= roster::home_in(keys[first]) {
            return first;
        }
    }
    tasks
}

// Whether the window of a task is there.
fn window_there(
    table: &Rows,
    keys: &[u32; Order::MOST_TASKS],
    tasks: usize,
    member: Member,
    last: u32,
) -> bool
    requires { SomeTaskThere table.now keys.now tasks member last }
    ensures { TellsWindow table.now keys.now tasks member last result }
{
    let mut own = [0u32; Order::MOST_TASKS];
    let mut rows = Rows::zero();
    let first = first_of(keys, tasks, member.partition);
    let size = roster::members_of(keys, tasks, first, member.partition, &mut own);
    roster::fill_rows(table, &own, size, &mut rows);
    let rank = member.rank as usize;
    let blocked = trial::blocking(&rows, size, rank);
    verdict::has_window(&rows, rank, blocked, last)
}

// The first task that does not pass or whose recorded response differs.
fn first_wrong(
    members: &[Member; Order::MOST_TASKS],
    worsts: &[Option<u32>; Order::MOST_TASKS],
    tasks: usize,
) -> Option<usize>
    requires { tasks ≤ most_tasks }
    ensures { FirstWrong members.now worsts.now tasks result }
{
    for i in 0..tasks {
        if worsts[i] != Some(members[i].response) {
            return Some(i);
        }
    }
    None
}

// Task by task 27 to 30; 28 never comes, since a window gives every start.
pub fn judge_tests(
    order: &Order,
    build: &Build,
    keys: &[u32; Order::MOST_TASKS],
) -> Result<(), Refusal>
    requires { WithinLimits order.now × LineOf order.now build.now keys.now × RanksRecorded order.now build.now }
    ensures { result ≡ given tt (first_broken 0 (test_rules order.now build.now)) }
{
    let tasks = order.tasks as usize;
    let table = roster::row_table(*order);
    let results = test_all(&table, keys, tasks);
    let Some(i) = first_wrong(&build.members, &results.worsts, tasks) else {
        return Ok(());
    };
    if results.worsts[i].is_some() {
        return Err(Refusal::OfBuild(BuildCause::Response(i as u16)));
    }
    if window_there(&table, keys, tasks, build.members[i], results.lasts[i]) {
        return Err(Refusal::OfBuild(BuildCause::Late(i as u16)));
    }
    Err(Refusal::OfBuild(BuildCause::Window(i as u16)))
}
