// The ECN marks that packets carried (RFC 3168), the totals of accepted packets by mark, and the ACK that tells them.
// Carries the marks and totals of request No. 2 of document 02 (RFC 9000 section 19.3.2).
// Every public function takes any numbers.

#![tactic(auto)]

mod counts;
mod given;

// The ECN mark that a packet carried (RFC 3168), none being the fourth (02, No. 2).
#[derive(Clone, Copy, PartialEq, Eq)]
pub enum Mark {
    None,
    Ect0,
    Ect1,
    Ce,
}

// The ACK that the caller of write chose: type 02, or type 03 with the counts (RFC 9000 19.3.2).
#[derive(Clone, Copy, PartialEq, Eq)]
pub enum Kind {
    Plain,
    Counts,
}

// How many accepted packets, of both kinds, carried each mark; at 2^62 - 1 a total stays.
#[repr(C)]
#[derive(Clone, Copy)]
pub struct Totals {
    // These were marked ECT(0).
    pub ect0: u64,
    // These were marked ECT(1).
    pub ect1: u64,
    // These were marked CE.
    pub ce: u64,
    // These had no mark.
    pub unmarked: u64,
}
