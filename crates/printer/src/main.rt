// The build printer: plans the order on standard input, and prints its build, or the refusal's number and place.
#![tactic(auto)]

use model::Order;
use std::io;

// One byte more than the longest order, so that a longer input is refused.
const MOST_READ: usize = Order::MOST_BYTES + 1;

fn main(rt: HostRuntime) -> io::Result<()> {
    let mut order = [0u8; MOST_READ];
    let mut input = rt.stdin();
    let size = show::read_full(&mut input, &mut order);
    if size == MOST_READ || show::has_ended(&mut input) {
        show::show_plan(&rt, &order[..size])
    } else {
        show::show_unreadable(&rt)
    }
}
