// The newest lost object of a report: the last record that is marked not received.
// Carries No. 11 of document 02: a search from the last record down, which stops at the first one found and reads none before it.
// It takes any bytes, and refuses by the paper's table; what it does not notice stands in docs/clerk/EXCEPTIONS.md.

#![tactic(auto)]

mod search;
mod whole;

pub use whole::newest_lost;

// The last object that was not received: its group, 0 in profile 1, and its number.
#[derive(Clone, Copy)]
pub struct Lost {
    pub group: u64,
    pub object: u64,
}
