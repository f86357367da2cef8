// First fit's turns: each task is tried beside the members of each partition, and seated in the line of keys.
#![tactic(auto)]

ghost use Rattle.std.specs.Prelude.{◌≡◌, ℕ, ◌≤◌, ◌<◌, length};
ghost use Rattle.model.specs.Limits.{most_tasks};
ghost use Rattle.roster.specs.Keys.{key_of as key_with};
ghost use Rattle.placing.specs.Known.{no_line, seated, Trying, TryingIn, TriedIn, Lowest};

use asked::Rows;
use model::Order;
use trial::Results;

// The placed tasks: their keys in line, how many they are, and by number what their tests gave.
#[derive(Clone, Copy)]
pub struct TaskLine {
    pub keys: [u32; Order::MOST_TASKS],
    pub placed: usize,
    pub results: Results<u32>,
}

impl TaskLine {
    // No task is placed.
    pub fn empty() -> Self
        ensures { result ≡ no_line }
    {
        Self {
            keys: [0; Order::MOST_TASKS],
            placed: 0,
            results: Results::none(0),
        }
    }

    // The task of a key among the members of its partition, who stand in line from the first on: whether all pass, else how
    // many members were there.
    fn try_partition(&mut self, table: &Rows, first: usize, key: u32) -> Result<(), usize>
        requires { TryingIn table.now self.old first key }
        ensures { (so : TryingIn table.now self.old first key) → TriedIn table.now self.old first key so result self.new }
    {
        let mut own = [0u32; Order::MOST_TASKS];
        let size = roster::members_of(
            &self.keys,
            self.placed,
            first,
            roster::home_in(key),
            &mut own,
        );
        let newcomer = roster::put_in(&mut own, size, key);
        let mut rows = Rows::zero();
        roster::fill_rows(table, &own, size + 1, &mut rows);
        if trial::tries(&rows, &own, size + 1, newcomer, &mut self.results) {
            Ok(())
        } else {
            Err(size)
        }
    }

    // The lowest-numbered of the opened partitions that takes the task.
    pub fn lowest_accepting(&mut self, table: &Rows, task: usize, opened: u32) -> Option<u32>
        requires { Trying table.now self.old task × (opened ≤ 32) }
        ensures { (so : Trying table.now self.old task) → Lowest table.now self.old task so opened result self.new }
    {
        let mut first = 0;
        for partition in 0..opened {
            let key = roster::key_of(partition, table.deadlines[task], task);
            match self.try_partition(table, first, key) {
                Ok(()) => return Some(partition),
                Err(members) => first += members,
            }
        }
        None
    }

    // The task takes its place in the line.
    pub fn seat(&mut self, home: u32, deadline: u32, task: usize)
        requires { (home < 32) × (deadline ≤ 1_000_000) × (task < most_tasks) × (self.old.placed < most_tasks) × (length self.old.keys ≡ most_tasks) }
        ensures { self.new ≡ seated self.old (key_with home deadline task) }
    {
        roster::put_in(
            &mut self.keys,
            self.placed,
            roster::key_of(home, deadline, task),
        );
        self.placed += 1;
    }
}
