// What the members of a partition ask by a tick, and the search for the first tick at which it is met.
#![tactic(auto)]

mod lines;
mod rows;
mod steps;

ghost use Rattle.std.specs.Prelude.{◌≡◌, ◌≤◌, leb};
ghost use Rattle.laws.specs.Choice.{pick};
ghost use Rattle.asked.specs.Rows.{RowsFit, asked_by};
ghost use Rattle.asked.specs.Met.{met_by, UnmetBelow, StillFrom};

pub use lines::line_below;
use model::Order;
pub use rows::{Row, Rows};

// The parts of a whole processor: every number up to 19 divides them.
pub const WHOLE: u64 = 3_491_888_400;

// What was found, and a tick before which nothing more is released.
#[derive(Clone, Copy)]
pub struct Searched {
    pub found: Option<u32>,
    pub next: u32,
}

// When the line is asked for: after how many more steps, after how many it was last, and which periods then go by their share.
#[derive(Clone, Copy)]
pub struct Pace {
    pub reach: u32,
    pub wait: u32,
    pub waited: u32,
}

// Where the search goes on, and when it next asks for the line.
#[derive(Clone, Copy)]
pub struct Ahead {
    pub to: u64,
    pub wait: u32,
    pub waited: u32,
}

// To the line: asked for at once again where it helped, else after twice as many steps.
fn by_line(rows: &Rows, count: usize, base: u64, w: u32, on: u64, pace: Pace) -> Ahead
    requires { RowsFit rows.now count × (base ≤ 4_000_000) × (w ≤ 2_000_000) × (w ≤ on) × (pace.waited ≤ 15) × UnmetBelow (asked_by rows.now count) base on }
    ensures { (on ≤ result.to) × UnmetBelow (asked_by rows.now count) base result.to × (result.waited ≤ 15) }
{
    let line = lines::line_below(rows, count, w, pace.reach);
    let end = lines::line_end(base + line.rest, line.slope);
    if on < end {
        return Ahead {
            to: on.max(end - 1),
            wait: 0,
            waited: 0,
        };
    }
    let waits = (2 * pace.waited + 1).min(15);
    Ahead {
        to: on,
        wait: waits,
        waited: waits,
    }
}

// Nothing before this tick meets what is asked; a line may lie further.
fn go_ahead(rows: &Rows, count: usize, base: u64, w: u32, on: u64, pace: Pace) -> Ahead
    requires { RowsFit rows.now count × (base ≤ 4_000_000) × (w ≤ 2_000_000) × (w ≤ on) × (pace.waited ≤ 15) × UnmetBelow (asked_by rows.now count) base on }
    ensures { (on ≤ result.to) × UnmetBelow (asked_by rows.now count) base result.to × (result.waited ≤ 15) }
{
    if 0 < pace.wait {
        return Ahead {
            to: on,
            wait: pace.wait - 1,
            waited: pace.waited,
        };
    }
    by_line(rows, count, base, w, on, pace)
}

// At a tick, unless it lies past the limit.
fn unless_past(w: u64, limit: u32, next: u32) -> Searched
    ensures { result ≡ record { found = pick (leb w limit) (Some w) None; next = next } }
{
    if u64::from(limit) < w {
        return Searched { found: None, next };
    }
    Searched {
        found: Some(w as u32),
        next,
    }
}

// The smallest w up to the limit with base + what is asked by w ≤ w + 1, of which none is below from.
pub fn met(rows: &Rows, count: usize, base: u64, from: u32, limit: u32) -> Searched
    requires { RowsFit rows.now count × (base ≤ 4_000_000) × (from ≤ 2_000_000) × (limit ≤ 2_000_000) × UnmetBelow (asked_by rows.now count) base from }
    ensures found { result.found ≡ met_by (asked_by rows.now count) base limit }
    ensures still { StillFrom (asked_by rows.now count) result.found result.next }
{
    let mut due = [0u32; Order::MOST_TASKS];
    let begun = steps::begin(rows, count, from, &mut due);
    let mut all = begun.all;
    let mut next = begun.next;
    let mut w = from;
    let mut pace = Pace {
        reach: 2,
        wait: 1,
        waited: 1,
    };
    // No range: the next tick is the one that the search finds.
    while w <= limit {
        let on = (base + all).max(u64::from(w) + 1) - 1;
        if on < u64::from(next) {
            return unless_past(on, limit, next);
        }
        let onward = go_ahead(rows, count, base, w, on, pace);
        if u64::from(limit) < onward.to {
            return unless_past(onward.to, limit, next);
        }
        let to = onward.to as u32;
        let step = steps::go_on(rows, count, all, to, &mut due);
        pace = Pace {
            reach: 4 * (to - w),
            wait: onward.wait,
            waited: onward.waited,
        };
        all = step.all;
        next = step.next;
        w = to;
    }
    unless_past(u64::from(w), limit, next)
}
