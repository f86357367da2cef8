// The kinds of thing that the planner reads and answers, with their limits, and the causes of refusals.
#![tactic(auto)]

mod answer;
mod build;
mod order;

pub use answer::{
    BuildCause, CallCause, LateCause, ListCause, OrderCause, Reading, Refusal, ScriptCause,
    TextCause,
};
pub use build::{Build, Member, Partition, Release};
pub use order::{Order, Task};
