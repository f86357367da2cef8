// The run of one partition, from event to event.
ghost use Rattle.std.specs.Prelude.{◌≡◌, true, ◌+◌, ◌<◌, length};
ghost use Rattle.model.specs.Limits.{most_records};
ghost use Rattle.course.specs.Ahead.{GatheredSo};
ghost use Rattle.course.specs.Course.{goes_on, event_of, noted, Turned, FinishesNoted};
ghost use Rattle.course.specs.Tables.{GathersIn, TurnsIn, BeginsIn};

use model::{Order, Release};
use stepper::{Machine, NO_RECORD};

// Members that are released, as ranks, and the partition's next record.
#[derive(Clone, Copy)]
pub struct Gathered {
    pub ranks: u32,
    pub ahead: u16,
}

// A job runs, or a record is still to join.
fn goes_on(m: Machine) -> bool
    ensures { result ≡ goes_on m }
{
    m.job < NO_RECORD || m.ahead < NO_RECORD
}

// The finish tick of the job that runs.
fn note(m: Machine, out: &mut [u32])
    requires { (m.tick + m.left < 4_294_967_296) × (m.job < most_records → m.job < length out.old) }
    ensures { out.new ≡ noted m out.old }
{
    if m.job < NO_RECORD {
        out[m.job as usize] = m.tick + m.left;
    }
}

// What the run reads: of each record its tick and task, its length, and its next of its task and of its partition; each task's rank.
#[derive(Clone, Copy)]
pub struct Tables<'a> {
    pub keys: &'a [u32; Release::MOST],
    pub durations: &'a [u32; Release::MOST],
    pub ranks: &'a [u32; Order::MOST_TASKS],
    pub next: &'a [u16; Release::MOST],
    pub after: &'a [u16; Release::MOST],
}

impl Tables<'_> {
    // The members with a record from this one on that joins before a tick.
    fn gather(&self, from: u16, tick: u32) -> Gathered
        requires { GathersIn self.now from tick }
        ensures { (so : GathersIn self.now from tick) → GatheredSo so.build so.script so.partition so.tick tick result }
    {
        let mut ahead = from;
        let mut set: u32 = 0;
        // No range: the next record is read from a table.
        while stepper::joined(self.keys, ahead, tick) {
            let i = ahead as usize;
            set = stepper::with_rank(set, self.ranks[(self.keys[i] % 32) as usize]);
            ahead = self.after[i];
        }
        Gathered { ranks: set, ahead }
    }

    // The next tick at which a job ends or, in a free partition, one joins.
    fn event(&self, m: Machine) -> u32
        requires { (m.tick + m.left < 4_294_967_296) × (goes_on m ≡ true) × (length self.now.keys.now ≡ most_records) }
        ensures { result ≡ event_of m self.now.keys.now }
    {
        if m.job < NO_RECORD {
            m.tick + m.left
        } else {
            self.keys[m.ahead as usize] / 32
        }
    }

    // On to the next event: what joins before it waits, and then comes its tick.
    fn turn(&self, mut m: Machine) -> Machine
        requires { TurnsIn self.now m × (goes_on m ≡ true) }
        ensures { (so : TurnsIn self.now m) → Turned so.order so.build so.script so.partition m result }
    {
        let tick = self.event(m);
        let before = self.gather(m.ahead, tick);
        let due = self.gather(before.ahead, tick + 1);
        m.tick = tick;
        m.waiting = m.waiting | before.ranks;
        m.left = 0;
        m.ahead = due.ahead;
        m.tick(due.ranks, self.keys, self.durations, self.next)
    }

    // The run of one partition, from event to event.
    pub fn run(&self, start: Machine, out: &mut [u32])
        requires { BeginsIn self.now start (length out.old) }
        ensures { (so : BeginsIn self.now start (length out.old)) → FinishesNoted so.turns.order so.turns.build so.turns.script so.turns.partition out.old out.new }
    {
        let mut m = start;
        // No range: each step is as long as to the next event.
        while goes_on(m) {
            m = self.turn(m);
            note(m, out);
        }
    }
}
