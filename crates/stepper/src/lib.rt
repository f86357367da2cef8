// The step machine of one partition by value: what waits and what runs before a tick, and the step to the next.
#![tactic(auto)]

ghost use Rattle.std.specs.Prelude.{◌≡◌, ◌&&◌, ℕ, suc, ◌+◌, ◌-◌, ◌/◌, ◌^◌, ◌≤◌, ◌<◌, ltb, length, get_or};
ghost use Rattle.std.specs.Int.Bits.{bit_or};
ghost use Rattle.laws.specs.Choice.{pick};
ghost use Rattle.model.specs.Limits.{most_records};
ghost use Rattle.stepper.specs.Ranks.{LowestRank};
ghost use Rattle.stepper.specs.Follow.{Ready, Follows, StartsOne};

use model::{Order, Release};

// Stands where there is no record.
pub const NO_RECORD: u16 = Release::MOST as u16;

// What a partition holds before a tick: the ranks of the members that wait, a bit each; by rank, the member's oldest
// record that has not started; the partition's first record that has not joined; the record that runs; its time left.
// Where there is no such record, it is NO_RECORD.
#[derive(Clone, Copy)]
pub struct Machine {
    pub tick: u32,
    pub waiting: u32,
    pub oldest: [u16; Order::MOST_TASKS],
    pub ahead: u16,
    pub job: u16,
    pub left: u32,
}

// There is a record i, and it joins before a tick.
pub fn joined(keys: &[u32; Release::MOST], i: u16, tick: u32) -> bool
    requires { length keys.now ≡ most_records }
    ensures { result ≡ (ltb i most_records && ltb (get_or keys.now i 0 / 32) tick) }
{
    i < NO_RECORD && keys[i as usize] / 32 < tick
}

// A set of ranks with one more.
pub fn with_rank(ranks: u32, rank: u32) -> u32
    requires { rank < 32 }
    ensures { result ≡ bit_or ranks (2 ^ rank) }
{
    ranks | (1u32 << rank)
}

// The lowest rank of a set.
fn lowest(ranks: u32) -> u32
    requires { 0 < ranks }
    ensures { (result < 32) × LowestRank ranks result }
{
    u32::trailing_zeros(ranks)
}

// A rank leaves a set, unless it stays.
fn unless_stays(ranks: u32, rank: u32, stays: bool) -> u32
    requires { (rank < 32) × (2 ^ rank ≤ ranks) }
    ensures { result ≡ pick stays ranks (ranks - 2 ^ rank) }
{
    if stays { ranks } else { ranks - (1u32 << rank) }
}

impl Machine {
    // A tick: what is used up ends, the releases join, and if the partition is free the highest-priority waiting job starts.
    pub fn tick(
        mut self,
        releases: u32,
        keys: &[u32; Release::MOST],
        durations: &[u32; Release::MOST],
        next: &[u16; Release::MOST],
    ) -> Machine
        requires { Ready self releases keys.now durations.now next.now }
        ensures { ((so : Ready self releases keys.now durations.now next.now) → Follows so.order so.build so.script so.partition result × StartsOne so.order so.build so.script so.partition self result) × (result.tick ≡ suc self.tick) × (result.ahead ≡ self.ahead) }
    {
        self.waiting = self.waiting | releases;
        self.tick = self.tick + 1;
        if 0 < self.left {
            self.left = self.left - 1;
            return self;
        }
        if self.waiting == 0 {
            self.job = NO_RECORD;
            return self;
        }
        let rank = lowest(self.waiting);
        let job = self.oldest[rank as usize];
        let younger = next[job as usize];
        self.oldest[rank as usize] = younger;
        self.waiting = unless_stays(self.waiting, rank, joined(keys, younger, self.tick));
        self.job = job;
        self.left = durations[job as usize] - 1;
        self
    }
}
