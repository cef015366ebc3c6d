// For the archive of crate host: the feedback report, read, under its C names.

#![tactic(auto)]

mod reports;

// Where the entries of a report stand in the caller's own bytes, and how many bytes they take.
#[repr(C)]
#[derive(Clone, Copy)]
pub struct EntriesOut {
    pub start: u64,
    pub length: u64,
}
