// The script's reader: its bytes are read and judged once, into the numbers that the run uses.
#![tactic(auto)]

ghost use Rattle.std.specs.Prelude.{◌≡◌, ◌&&◌, ◌+◌, ◌*◌, ◌%◌, ◌≤◌, ◌<◌, eqb, leb, length};
ghost use Rattle.bits.specs.Field.{field};
ghost use Rattle.bits.specs.Layout.{bytes_in};
ghost use Rattle.model.specs.Limits.{most_records};
ghost use Rattle.model.specs.Layouts.{release_record, script_length};
ghost use Rattle.model.specs.Rules.{WithinLimits};
ghost use Rattle.script.specs.Judged.{TakesRelease, JudgesRelease, JudgesRecords, JudgesScript};

use model::{Order, Refusal, Release, ScriptCause};

// A record taken: tick * 32 + task, its length and its spare bits.
#[derive(Clone, Copy)]
pub struct ReleaseTaken {
    pub key: u32,
    pub duration: u32,
    pub spare: u64,
}

// Three bytes as one number: no test of the end, so that a record costs two reads.
fn three_bytes(script: &[u8], from: usize) -> u64
    requires { from + 3 ≤ length script.now }
    ensures { (result ≡ field script.now (8 * from) 24) × (result < 16_777_216) }
{
    u64::from(script[from]) * 65_536
        + u64::from(script[from + 1]) * 256
        + u64::from(script[from + 2])
}

// tick 20, task 5, length 20, spare 3
fn take_release(script: &[u8], i: usize) -> ReleaseTaken
    requires { script_length 1 (i + 1) ≤ length script.now }
    ensures { TakesRelease script.now i result }
{
    let from = Release::BYTES * i;
    let number = three_bytes(script, from) * 16_777_216 + three_bytes(script, from + 3);
    ReleaseTaken {
        key: (number / 8_388_608) as u32,
        duration: (number / 8 % 1_048_576) as u32,
        spare: number % 8,
    }
}

// 41 to 45 of a record, in turn.
fn judge_release(
    taken: ReleaseTaken,
    tasks: u32,
    most: u32,
    least: u32,
    from: u32,
    i: u16,
) -> Result<(), Refusal>
    ensures { JudgesRelease taken tasks most least from i result }
{
    let lasts = (1..=most).contains(&taken.duration);
    let apart = from <= taken.key / 32;
    if taken.spare != 0 {
        return Err(Refusal::OfScript(ScriptCause::RecordSpare(i)));
    }
    if tasks <= taken.key % 32 {
        return Err(Refusal::OfScript(ScriptCause::RecordTask(i)));
    }
    if taken.key < least {
        return Err(Refusal::OfScript(ScriptCause::RecordOrder(i)));
    }
    if !lasts {
        return Err(Refusal::OfScript(ScriptCause::JobLength(i)));
    }
    if !apart {
        return Err(Refusal::OfScript(ScriptCause::ReleaseGap(i)));
    }
    Ok(())
}

// 41 to 45, record by record; earliest holds the first tick at which each task may be released again.
fn judge_records(
    order: Order,
    script: &[u8],
    records: usize,
    keys: &mut [u32; Release::MOST],
    durations: &mut [u32; Release::MOST],
) -> Result<(), Refusal>
    requires limits { WithinLimits order }
    requires few { records ≤ most_records }
    requires there { script_length 1 records ≤ length script.now }
    requires key_places { length keys.old ≡ most_records }
    requires duration_places { length durations.old ≡ most_records }
    ensures { JudgesRecords order script.now records keys.new durations.new result }
{
    let mut earliest = [0u32; Order::MOST_TASKS];
    let mut least: u32 = 0;
    for i in 0..records {
        let taken = take_release(script, i);
        let key = taken.key;
        let k = (key % 32) as usize;
        let task = order.table[k];
        judge_release(taken, order.tasks, task.run, least, earliest[k], i as u16)?;
        keys[i] = key;
        durations[i] = taken.duration;
        earliest[k] = key / 32 + task.period;
        least = key + 1;
    }
    Ok(())
}

// Whether so many bytes are whole records, and few enough.
fn whole_records(size: usize) -> bool
    ensures { result ≡ (eqb (size % bytes_in (release_record 1)) 0 && leb size (script_length 1 most_records)) }
{
    size % Release::BYTES == 0 && size <= Release::MOST_BYTES
}

// 40, 46, then record by record 41 to 45; done with the number of records.
pub fn judge_script(
    order: Order,
    script: &[u8],
    places: usize,
    keys: &mut [u32; Release::MOST],
    durations: &mut [u32; Release::MOST],
) -> Result<u32, Refusal>
    requires limits { WithinLimits order }
    requires key_places { length keys.old ≡ most_records }
    requires duration_places { length durations.old ≡ most_records }
    ensures { JudgesScript order script.now places keys.new durations.new result }
{
    let size = script.len();
    let records = size / Release::BYTES;
    let whole = whole_records(size);
    let room = records <= places;
    if !whole {
        return Err(Refusal::OfScript(ScriptCause::ScriptLength));
    }
    if !room {
        return Err(Refusal::OfScript(ScriptCause::FinishPlaces));
    }
    judge_records(order, script, records, keys, durations)?;
    Ok(records as u32)
}
