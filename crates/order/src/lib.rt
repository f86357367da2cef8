// The order's reader: from bytes to M, n and the table, or the first refusal.
#![tactic(auto)]

mod reader;

ghost use Rattle.std.specs.Prelude.{◌≡◌, ◌+◌, ◌≤◌, ◌<◌, ◌^◌};
ghost use Rattle.model.specs.Limits.{most_tasks};
ghost use Rattle.model.specs.Rules.{first_broken, given};
ghost use Rattle.order.specs.Order.{task_start, header_of, header_rules, task_read, table_read, order_read, Reads};

use model::{Order, OrderCause, Reading, Refusal, Task};
use reader::OrderReader;

// The header's fields.
#[derive(Clone, Copy)]
pub struct Header {
    pub version: u32,
    pub processors: u32,
    pub tasks: u32,
    pub spare: u32,
}

// The header, front to back.
pub fn read_header(order: &[u8]) -> Header
    ensures { result ≡ header_of order.now }
{
    let mut reader = OrderReader { order, at: 0 };
    Header {
        version: reader.take(4),
        processors: reader.take(7),
        tasks: reader.take(6),
        spare: reader.take(7),
    }
}

// The record of a task at which the reader stands, front to back, or 6 where a spare bit of it is set.
fn read_task(reader: &mut OrderReader, number: u16) -> Result<Task, Refusal>
    requires { (reader.old.at ≡ task_start number) × (number < most_tasks) }
    ensures task { result ≡ task_read reader.old.order.now number }
    ensures next { reader.new.at ≡ task_start (number + 1) }
    ensures order { reader.new.order ≡ reader.old.order }
{
    let task = Task {
        width: reader.take(7),
        period: reader.take(20),
        deadline: reader.take(20),
        run: reader.take(20),
    };
    if reader.take(5) != 0 {
        return Err(Refusal::OfOrder(OrderCause::TaskSpare(number)));
    }
    Ok(task)
}

// The records of so many tasks, front to back: the table, zero past them, or 6 of the lowest task that breaks it.
fn read_table(order: &[u8], tasks: usize) -> Result<[Task; Order::MOST_TASKS], Refusal>
    requires { tasks ≤ most_tasks }
    ensures { result ≡ table_read order.now tasks }
{
    let mut reader = OrderReader {
        order,
        at: 8 * Order::HEADER_BYTES,
    };
    let mut table = [Task::zero(); Order::MOST_TASKS];
    for i in 0..tasks {
        table[i] = read_task(&mut reader, i as u16)?;
    }
    Ok(table)
}

// 1 to 5, and 6 of the header.
fn judge_header(size: usize, header: Header) -> Result<(), Refusal>
    requires { header.tasks < 2 ^ 6 }
    ensures { result ≡ given tt (first_broken 0 (header_rules size header)) }
{
    if size < Order::HEADER_BYTES {
        return Err(Refusal::OfOrder(OrderCause::OrderShort));
    }
    if header.version != 1 {
        return Err(Refusal::OfOrder(OrderCause::OrderVersion));
    }
    if !(1..=Order::MOST_PROCESSORS).contains(&header.processors) {
        return Err(Refusal::OfOrder(OrderCause::Processors));
    }
    if !(1..=Order::MOST_TASKS as u32).contains(&header.tasks) {
        return Err(Refusal::OfOrder(OrderCause::Tasks));
    }
    if size != Order::bytes(header.tasks as usize) {
        return Err(Refusal::OfOrder(OrderCause::OrderLength));
    }
    if header.spare != 0 {
        return Err(Refusal::OfOrder(OrderCause::HeaderSpare));
    }
    Ok(())
}

// The order that stands in the bytes: 1 to 6 in turn, then task by task 7 to 10.
pub fn read(order: &[u8]) -> Result<Order, Refusal>
    ensures { result ≡ order_read order.now }
{
    let header = read_header(order);
    judge_header(order.len(), header)?;
    let read = Order {
        processors: header.processors,
        tasks: header.tasks,
        table: read_table(order, header.tasks as usize)?,
    };
    read.judge()?;
    Ok(read)
}

// What an order's bytes say: M, n and the table, all zero where they are refused.
pub fn read_order(order: &[u8]) -> Reading
    ensures { Reads order.now result }
{
    match read(order) {
        Ok(order) => Reading {
            answer: Ok(0),
            order,
        },
        Err(refusal) => Reading {
            answer: Err(refusal),
            order: Order::empty(),
        },
    }
}
