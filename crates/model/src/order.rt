// Tasks and orders.
ghost use Rattle.std.specs.Prelude.{◌≡◌, ◌≤◌};
ghost use Rattle.model.specs.Limits.{zero_task, empty_order, cost};
ghost use Rattle.model.specs.Layouts.{order_length};
ghost use Rattle.model.specs.Rules.{first_broken, given, task_rules, range_rules};

use crate::{OrderCause, Refusal};

// A rigid sporadic gang: width m, period T, deadline D, run time C.
#[derive(Clone, Copy, Debug, PartialEq, Eq)]
pub struct Task {
    pub width: u32,
    pub period: u32,
    pub deadline: u32,
    pub run: u32,
}

impl Task {
    // The longest period, in ticks.
    pub const MOST_PERIOD: u32 = 1_000_000;

    // The response test looks no further, in ticks.
    pub const HORIZON: u32 = 1_000_000;

    // A task's record in an order.
    pub const BYTES: usize = 9;

    pub fn zero() -> Self
        ensures { result ≡ zero_task }
    {
        Self {
            width: 0,
            period: 0,
            deadline: 0,
            run: 0,
        }
    }

    // How long a job takes at most.
    pub fn cost(self) -> u32
        ensures { result ≡ cost self }
    {
        self.run
    }

    // 7 to 10 of this task, in turn.
    pub fn judge(self, processors: u32, number: u16) -> Result<(), Refusal>
        ensures { result ≡ given tt (first_broken 0 (task_rules processors self number)) }
    {
        if !(1..=processors).contains(&self.width) {
            return Err(Refusal::OfOrder(OrderCause::Width(number)));
        }
        if !(1..=Task::MOST_PERIOD).contains(&self.period) {
            return Err(Refusal::OfOrder(OrderCause::Period(number)));
        }
        if !(1..=self.period).contains(&self.deadline) {
            return Err(Refusal::OfOrder(OrderCause::Deadline(number)));
        }
        if !(1..=self.deadline).contains(&self.cost()) {
            return Err(Refusal::OfOrder(OrderCause::RunTime(number)));
        }
        Ok(())
    }
}

// Processors M, tasks n, and the table as one value, zero past its n tasks.
#[derive(Clone, Copy, Debug, PartialEq, Eq)]
pub struct Order {
    pub processors: u32,
    pub tasks: u32,
    pub table: [Task; Order::MOST_TASKS],
}

impl Order {
    pub const MOST_TASKS: usize = 32;

    pub const MOST_PROCESSORS: u32 = 64;

    pub const HEADER_BYTES: usize = 3;

    // The longest order.
    pub const MOST_BYTES: usize = Order::HEADER_BYTES + Task::BYTES * Order::MOST_TASKS;

    pub fn empty() -> Self
        ensures { result ≡ empty_order }
    {
        let zero = Task::zero();
        Self {
            processors: 0,
            tasks: 0,
            table: [zero; Order::MOST_TASKS],
        }
    }

    // How many bytes an order of so many tasks has.
    pub fn bytes(tasks: usize) -> usize
        requires { tasks ≤ 63 }
        ensures { result ≡ order_length 1 tasks }
    {
        Order::HEADER_BYTES + Task::BYTES * tasks
    }

    // 7 to 10, task by task.
    pub fn judge(&self) -> Result<(), Refusal>
        requires { self.now.tasks ≤ 32 }
        ensures { result ≡ given tt (first_broken 0 (range_rules self.now)) }
    {
        for i in 0..self.tasks as usize {
            self.table[i].judge(self.processors, i as u16)?;
        }
        Ok(())
    }
}
