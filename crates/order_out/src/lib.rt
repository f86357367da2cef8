// The order's writer, in two halves: an order's bytes, or the first refusal; and M and four columns as an order.
#![tactic(auto)]

ghost use Rattle.std.specs.Prelude.{◌≡◌, ◌++◌, ◌*◌, ◌≤◌, ◌<◌, min, length, drop};
ghost use Rattle.laws.specs.Joined.{filled};
ghost use Rattle.bits.specs.Layout.{bytes_in, record_bytes, FitIn};
ghost use Rattle.bits.proofs.Records.{length_record};
ghost use Rattle.model.specs.Limits.{most_tasks, zero_task};
ghost use Rattle.model.specs.Layouts.{order_header, task_record, order_length};
ghost use Rattle.order.specs.Order.{header_numbers, header_for, task_numbers, task_bytes, table_bytes, order_bytes};
ghost use Rattle.order_out.specs.Write.{OrderFits, PutIfRoom, WritesOrder, columns, columns_of, one_length, SameLengths, column_task, column_order, Writes};

use bits::{Record, put_records};
use model::{CallCause, Order, OrderCause, Refusal, Task};

// version 4 (=1), M 7, n 6, spare 7
fn put_header(out: &mut [u8], processors: u32, tasks: u32)
    requires { (bytes_in order_header ≤ length out.old) × FitIn order_header (header_numbers (header_for processors tasks)) }
    ensures { out.new ≡ record_bytes order_header (header_numbers (header_for processors tasks)) ++ drop (bytes_in order_header) out.old }
{
    let number = ((128 + u64::from(processors)) * 64 + u64::from(tasks)) * 128;
    bits::put_number(out, Order::HEADER_BYTES, number);
}

// A task's 72 bits are written as two numbers, the first so many bytes and the rest.
const HIGH_BYTES: usize = 5;

const LOW_BYTES: usize = Task::BYTES - HIGH_BYTES;

// m 7, T 20, D 20, C 20, spare 5
struct TaskRecord;

impl Record for TaskRecord {
    type Kind = Task;

    const BYTES: usize = Task::BYTES;

    ghost BYTES = { bytes_in (task_record 1) };

    ghost record_bytes = { task_bytes };

    ghost fits = { λ task. FitIn (task_record 1) (task_numbers task 0) };

    fn put(out: &mut [u8], task: Task) {
        let deadline = u64::from(task.deadline);
        let high = (u64::from(task.width) * 1_048_576 + u64::from(task.period)) * 8_192
            + deadline / 128;
        let low = deadline % 128 * 33_554_432 + u64::from(task.run) * 32;
        bits::put_number(out, HIGH_BYTES, high);
        bits::put_number(&mut out[HIGH_BYTES..], LOW_BYTES, low);
    }

    ghost record_long = { λ task. length_record (task_record 1) (task_numbers task 0) };
}

// An order's bytes into the front of out.
fn put_order(out: &mut [u8], order: &Order)
    requires { OrderFits order.now × (order_length 1 order.now.tasks ≤ length out.old) × (length order.now.table ≡ most_tasks) }
    ensures { out.new ≡ order_bytes order.now ++ drop (order_length 1 order.now.tasks) out.old }
{
    put_header(out, order.processors, order.tasks);
    put_records::<TaskRecord>(
        &mut out[Order::HEADER_BYTES..],
        &order.table[..order.tasks as usize],
    );
}

// An order that fits its fields, where there is room for it: 12.
fn put_if_room(order: &Order, out: &mut [u8]) -> Result<u32, Refusal>
    requires { OrderFits order.now × (length order.now.table ≡ most_tasks) }
    ensures { PutIfRoom order.now out.old result out.new }
{
    let size = Order::bytes(order.tasks as usize);
    if out.len() < size {
        return Err(Refusal::OfCall(CallCause::Output));
    }
    put_order(out, order);
    Ok(size as u32)
}

// An order's bytes: 3, 4, then task by task 7 to 10, then 12.
pub fn write(order: Order, out: &mut [u8]) -> Result<u32, Refusal>
    ensures { WritesOrder order out.old result out.new }
{
    if !(1..=Order::MOST_PROCESSORS).contains(&order.processors) {
        return Err(Refusal::OfOrder(OrderCause::Processors));
    }
    if !(1..=Order::MOST_TASKS as u32).contains(&order.tasks) {
        return Err(Refusal::OfOrder(OrderCause::Tasks));
    }
    order.judge()?;
    put_if_room(&order, out)
}

// Four columns, a row of them for each task.
#[derive(Clone, Copy)]
struct Columns<'a> {
    widths: &'a [u32],
    periods: &'a [u32],
    deadlines: &'a [u32],
    runs: &'a [u32],
}

impl<'a> Columns<'a> {
    fn same_lengths(&self) -> bool
        ensures { result ≡ (one_length (columns_of self.now)).test }
    {
        let rows = self.widths.len();
        rows == self.periods.len() && rows == self.deadlines.len() && rows == self.runs.len()
    }

    fn task(&self, row: usize) -> Task
        requires { SameLengths (columns_of self.now) × (row < length self.now.widths.now) }
        ensures { result ≡ column_task (columns_of self.now) row }
    {
        Task {
            width: self.widths[row],
            period: self.periods[row],
            deadline: self.deadlines[row],
            run: self.runs[row],
        }
    }

    // The first rows as a table.
    fn table(&self) -> [Task; Order::MOST_TASKS]
        requires { SameLengths (columns_of self.now) }
        ensures { result ≡ filled (column_task (columns_of self.now)) zero_task most_tasks (min (length self.now.widths.now) most_tasks) }
    {
        let mut table = [Task::zero(); Order::MOST_TASKS];
        for row in 0..self.widths.len().min(Order::MOST_TASKS) {
            table[row] = self.task(row);
        }
        table
    }

    // M and the columns as an order; more than 32 rows are one task too many.
    fn order(&self, processors: u32) -> Order
        requires { SameLengths (columns_of self.now) }
        ensures { result ≡ column_order processors (columns_of self.now) }
    {
        let tasks = self.widths.len().min(Order::MOST_TASKS + 1);
        Order {
            processors,
            tasks: tasks as u32,
            table: self.table(),
        }
    }
}

// M and four columns: 13, then the order that they make.
pub fn write_order(
    processors: u32,
    widths: &[u32],
    periods: &[u32],
    deadlines: &[u32],
    runs: &[u32],
    out: &mut [u8],
) -> Result<u32, Refusal>
    ensures { Writes processors (columns widths.now periods.now deadlines.now runs.now) out.old result out.new }
{
    // The public form stays: it is the C interface's shape, which the README names.
    let columns = Columns {
        widths,
        periods,
        deadlines,
        runs,
    };
    if !columns.same_lengths() {
        return Err(Refusal::OfCall(CallCause::Columns));
    }
    write(columns.order(processors), out)
}
