// First fit by decreasing volume: from an order to its build, or to the task for which first fit runs out.
#![tactic(auto)]

mod records;
mod taking;

pub use records::first_fit;
