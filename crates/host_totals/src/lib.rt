// For the archive of crate host: the week's totals under their C names.
// Where a lower crate answers a Result, a host gets the paper's number and the values, and 0 for what a refusal has not.

#![tactic(auto)]

mod week;

// What the writer of a page answers: the page's length.
#[repr(C)]
#[derive(Clone, Copy)]
pub struct PageOut {
    pub result: u64,
    pub length: u64,
}
