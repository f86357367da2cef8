// The response test of one member of a partition, as it is defined; its code is the crate verdict.
#![tactic(auto)]

// Why a member does not pass its test.
#[derive(Clone, Copy, Debug, PartialEq, Eq)]
pub enum Failing {
    NoWindow,
    NoStart,
    TooLate,
}
