// A line below the work that is asked: members of periods within reach ask at least their share of every tick, the others at least what they have asked.
ghost use Rattle.std.specs.Prelude.{◌≡◌, ◌≤◌};
ghost use Rattle.asked.specs.Rows.{RowsFit};
ghost use Rattle.asked.specs.Lines.{line_of, line_in, line_end};

use crate::{Rows, WHOLE, steps};

// What rests from a tick on, and the share of each tick that is added.
#[derive(Clone, Copy)]
pub struct Line {
    pub rest: u64,
    pub slope: u64,
}

fn line_of(period: u32, cost: u32, share: u32, w: u32, reach: u32) -> Line
    requires { (1 ≤ period) × (cost ≤ 1_000_000) × (w ≤ 2_000_000) }
    ensures { result ≡ line_of period cost share w reach }
{
    if period <= reach {
        return Line {
            rest: 0,
            slope: u64::from(share),
        };
    }
    Line {
        rest: u64::from(steps::releases_by(period, w)) * u64::from(cost),
        slope: 0,
    }
}

pub fn line_below(rows: &Rows, count: usize, w: u32, reach: u32) -> Line
    requires { RowsFit rows.now count × (w ≤ 2_000_000) }
    ensures { result ≡ line_in rows.now count w reach }
{
    let mut rest: u64 = 0;
    let mut slope: u64 = 0;
    for r in 0..count {
        let its = line_of(rows.periods[r], rows.costs[r], rows.shares[r], w, reach);
        rest += its.rest;
        slope += its.slope;
    }
    Line { rest, slope }
}

// The tick before which a line stays above: where it falls no more, or lies past every search, what rests is enough.
pub fn line_end(rest: u64, slope: u64) -> u64
    requires { rest ≤ 100_000_000_000_000 }
    ensures { result ≡ line_end rest slope }
{
    if WHOLE <= slope {
        return rest;
    }
    if 2_000_000_000 < rest {
        return rest;
    }
    rest * WHOLE / (WHOLE - slope)
}
