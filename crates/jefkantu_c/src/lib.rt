// The C surface, libjefkantu.a: the functions of jefkantu, exported.
#![tactic(auto)]

ghost use Rattle.order_out.specs.Write.{columns};
ghost use Rattle.jefkantu.specs.Surface.{ReadsOrder, WritesColumns};
ghost use Rattle.jefkantu.specs.Builds.{PlansBuild, ChecksBuild};
ghost use Rattle.jefkantu.specs.Runs.{RunsScript};
ghost use Rattle.jefkantu.specs.Texts.{ReadsForm, WritesForm};
ghost use Rattle.jefkantu.specs.Lists.{WritesSet, ReadsSet, GivesPartitionSets};
ghost use Rattle.jefkantu.specs.Late.{ShowsLateScript};

use jefkantu::ORDER_NUMBERS;

// Reads an order; the numbers are written only where it is accepted.
#[unsafe(no_mangle)]
pub extern "C" fn jefkantu_read_order(order: &[u8], numbers: &mut [u32; ORDER_NUMBERS]) -> u64
    ensures { ReadsOrder order.now numbers.old result numbers.new }
{
    jefkantu::jefkantu_read_order(order, numbers)
}

// Writes M and the columns as an order into the front of the output.
#[unsafe(no_mangle)]
pub extern "C" fn jefkantu_write_order(
    processors: u32,
    widths: &[u32],
    periods: &[u32],
    deadlines: &[u32],
    runs: &[u32],
    out: &mut [u8],
) -> u64
    ensures { WritesColumns processors (columns widths.now periods.now deadlines.now runs.now) out.old result out.new }
{
    jefkantu::jefkantu_write_order(processors, widths, periods, deadlines, runs, out)
}

// Plans an order: its build into the front of the output.
#[unsafe(no_mangle)]
pub extern "C" fn jefkantu_plan(order: &[u8], out: &mut [u8]) -> u64
    ensures { PlansBuild order.now out.old result out.new }
{
    jefkantu::jefkantu_plan(order, out)
}

// Checks a build against an order.
#[unsafe(no_mangle)]
pub extern "C" fn jefkantu_check(order: &[u8], build: &[u8]) -> u64
    ensures { ChecksBuild order.now build.now result }
{
    jefkantu::jefkantu_check(order, build)
}

// Runs a release script through a build: a finish tick for each record, into the front of the output.
#[unsafe(no_mangle)]
pub extern "C" fn jefkantu_run(order: &[u8], build: &[u8], script: &[u8], out: &mut [u32]) -> u64
    ensures { RunsScript order.now build.now script.now out.old result out.new }
{
    jefkantu::jefkantu_run(order, build, script, out)
}

// Reads the order form's text beside M: the order's bytes into the front of the output.
#[unsafe(no_mangle)]
pub extern "C" fn jefkantu_read_text(processors: u32, text: &[u8], out: &mut [u8]) -> u64
    ensures { ReadsForm processors text.now out.old result out.new }
{
    jefkantu::jefkantu_read_text(processors, text, out)
}

// Writes the text of an order into the front of the output.
#[unsafe(no_mangle)]
pub extern "C" fn jefkantu_write_text(order: &[u8], out: &mut [u8]) -> u64
    ensures { WritesForm order.now out.old result out.new }
{
    jefkantu::jefkantu_write_text(order, out)
}

// Writes a set of processors as a list into the front of the output.
#[unsafe(no_mangle)]
pub extern "C" fn jefkantu_write_list(set: u64, out: &mut [u8]) -> u64
    ensures { WritesSet set out.old result out.new }
{
    jefkantu::jefkantu_write_list(set, out)
}

// Reads a list of processors; the set is written only where it is accepted.
#[unsafe(no_mangle)]
pub extern "C" fn jefkantu_read_list(text: &[u8], set: &mut u64) -> u64
    ensures { ReadsSet text.now set.old result set.new }
{
    jefkantu::jefkantu_read_list(text, set)
}

// The set of each partition of an accepted build, into the front of the output.
#[unsafe(no_mangle)]
pub extern "C" fn jefkantu_partition_sets(order: &[u8], build: &[u8], out: &mut [u64]) -> u64
    ensures { GivesPartitionSets order.now build.now out.old result out.new }
{
    jefkantu::jefkantu_partition_sets(order, build, out)
}

// For a build that the check refuses 29, a script in which a job of the named task is late, into the front of the output.
#[unsafe(no_mangle)]
pub extern "C" fn jefkantu_late(order: &[u8], build: &[u8], out: &mut [u8]) -> u64
    ensures { ShowsLateScript order.now build.now out.old result out.new }
{
    jefkantu::jefkantu_late(order, build, out)
}
