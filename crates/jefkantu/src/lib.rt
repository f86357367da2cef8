// The C surface as functions of a library: each answer as one word, and the caller's memory. jefkantu_c exports them.
#![tactic(auto)]

ghost use Rattle.std.specs.Prelude.{◌≡◌};
ghost use Rattle.order_out.specs.Write.{columns};
ghost use Rattle.jefkantu.specs.Word.{answer_word};
ghost use Rattle.jefkantu.specs.Surface.{order_numbers, ReadsOrder, WritesColumns};
ghost use Rattle.jefkantu.specs.Builds.{PlansBuild, ChecksBuild};
ghost use Rattle.jefkantu.specs.Runs.{RunsScript};
ghost use Rattle.jefkantu.specs.Texts.{ReadsForm, WritesForm};
ghost use Rattle.jefkantu.specs.Lists.{WritesSet, ReadsSet, GivesPartitionSets};
ghost use Rattle.jefkantu.specs.Late.{ShowsLateScript};

use model::{Order, Refusal};

// "65,535 where none applies"
const NO_PLACE: u64 = 65_535;

// The numbers of an order read: M, n, and four for each place of the table.
pub const ORDER_NUMBERS: usize = 2 + 4 * Order::MOST_TASKS;

// Number, place and count in one word.
pub fn answer_word(answer: Result<u32, Refusal>) -> u64
    ensures { result ≡ answer_word answer }
{
    match answer {
        Ok(count) => NO_PLACE * 65_536 + u64::from(count) * 4_294_967_296,
        Err(cause) => u64::from(cause.number()) + u64::from(cause.place()) * 65_536,
    }
}

// M, n, then m, T, D and C of each place of the table.
fn order_numbers(order: Order) -> [u32; ORDER_NUMBERS]
    ensures { result ≡ order_numbers order }
{
    let mut numbers = [0u32; ORDER_NUMBERS];
    numbers[0] = order.processors;
    numbers[1] = order.tasks;
    for (i, task) in order.table.iter().enumerate() {
        let at = 2 + 4 * i;
        numbers[at] = task.width;
        numbers[at + 1] = task.period;
        numbers[at + 2] = task.deadline;
        numbers[at + 3] = task.run;
    }
    numbers
}

// Reads an order; the numbers are written only where it is accepted.
pub fn jefkantu_read_order(order: &[u8], numbers: &mut [u32; ORDER_NUMBERS]) -> u64
    ensures { ReadsOrder order.now numbers.old result numbers.new }
{
    let reading = order::read_order(order);
    if let Ok(_) = reading.answer {
        *numbers = order_numbers(reading.order);
    }
    answer_word(reading.answer)
}

// Writes M and the columns as an order into the front of the output.
pub fn jefkantu_write_order(
    processors: u32,
    widths: &[u32],
    periods: &[u32],
    deadlines: &[u32],
    runs: &[u32],
    out: &mut [u8],
) -> u64
    ensures { WritesColumns processors (columns widths.now periods.now deadlines.now runs.now) out.old result out.new }
{
    answer_word(order_out::write_order(processors, widths, periods, deadlines, runs, out))
}

// Plans an order: its build into the front of the output.
pub fn jefkantu_plan(order: &[u8], out: &mut [u8]) -> u64
    ensures { PlansBuild order.now out.old result out.new }
{
    answer_word(plan::plan(order, out))
}

// Checks a build against an order.
pub fn jefkantu_check(order: &[u8], build: &[u8]) -> u64
    ensures { ChecksBuild order.now build.now result }
{
    answer_word(inspect::check(order, build))
}

// Runs a release script through a build: a finish tick for each record, into the front of the output.
pub fn jefkantu_run(order: &[u8], build: &[u8], script: &[u8], out: &mut [u32]) -> u64
    ensures { RunsScript order.now build.now script.now out.old result out.new }
{
    answer_word(run::run(order, build, script, out))
}

// Reads the order form's text beside M: the order's bytes into the front of the output.
pub fn jefkantu_read_text(processors: u32, text: &[u8], out: &mut [u8]) -> u64
    ensures { ReadsForm processors text.now out.old result out.new }
{
    answer_word(text::read_text(processors, text, out))
}

// Writes the text of an order into the front of the output.
pub fn jefkantu_write_text(order: &[u8], out: &mut [u8]) -> u64
    ensures { WritesForm order.now out.old result out.new }
{
    answer_word(text_out::write_text(order, out))
}

// Writes a set of processors as a list into the front of the output.
pub fn jefkantu_write_list(set: u64, out: &mut [u8]) -> u64
    ensures { WritesSet set out.old result out.new }
{
    answer_word(list_out::write_list(set, out))
}

// Reads a list of processors; the set is written only where it is accepted.
pub fn jefkantu_read_list(text: &[u8], set: &mut u64) -> u64
    ensures { ReadsSet text.now set.old result set.new }
{
    let reading = list::read_list(text);
    if let Ok(_) = reading.answer {
        *set = reading.set;
    }
    answer_word(reading.answer)
}

// The set of each partition of an accepted build, into the front of the output.
pub fn jefkantu_partition_sets(order: &[u8], build: &[u8], out: &mut [u64]) -> u64
    ensures { GivesPartitionSets order.now build.now out.old result out.new }
{
    answer_word(partition_sets::partition_sets(order, build, out))
}

// For a build that the check refuses 29, a script in which a job of the named task is late, into the front of the output.
pub fn jefkantu_late(order: &[u8], build: &[u8], out: &mut [u8]) -> u64
    ensures { ShowsLateScript order.now build.now out.old result out.new }
{
    answer_word(late::late(order, build, out))
}
