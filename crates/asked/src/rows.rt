// What the test reads of members: their numbers as rows.
ghost use Rattle.std.specs.Prelude.{◌≡◌, ◌<◌};
ghost use Rattle.model.specs.Limits.{most_tasks};
ghost use Rattle.asked.specs.Rows.{row_at, row_put, no_rows};

use model::Order;

// A member's period, cost, share and deadline.
#[derive(Clone, Copy)]
pub struct Row {
    pub period: u32,
    pub cost: u32,
    pub share: u32,
    pub deadline: u32,
}

// Rows by kind of number, each number at its member's rank. Columns: in a copy of the step in Rust a list of rows took 1.05 to 1.6 times as long.
#[derive(Clone, Copy)]
pub struct Rows {
    pub periods: [u32; Order::MOST_TASKS],
    pub costs: [u32; Order::MOST_TASKS],
    pub shares: [u32; Order::MOST_TASKS],
    pub deadlines: [u32; Order::MOST_TASKS],
}

impl Rows {
    pub fn zero() -> Self
        ensures { result ≡ no_rows }
    {
        let none = [0; Order::MOST_TASKS];
        Self {
            periods: none,
            costs: none,
            shares: none,
            deadlines: none,
        }
    }

    pub fn row(&self, rank: usize) -> Row
        requires { rank < most_tasks }
        ensures { result ≡ row_at self.now rank }
    {
        Row {
            period: self.periods[rank],
            cost: self.costs[rank],
            share: self.shares[rank],
            deadline: self.deadlines[rank],
        }
    }

    // One row written over.
    pub fn put(&mut self, rank: usize, row: Row)
        requires { rank < most_tasks }
        ensures { self.new ≡ row_put self.old rank row }
    {
        self.periods[rank] = row.period;
        self.costs[rank] = row.cost;
        self.shares[rank] = row.share;
        self.deadlines[rank] = row.deadline;
    }
}
