// The sending side's loss list: up to 1,024 sent numbers in a row, each outstanding, acknowledged or lost.
// Carries request No. 9 of document 02; the packet threshold of 3 is that of RFC 9002 section 6.1.1.
// The record is large, so the caller lends it and it is updated there; a refused call leaves it as it was.

#![tactic(auto)]

mod calls;
mod hearing;
mod record;

pub use calls::{open, send};
pub use hearing::heard;

// So many numbers are held at most.
pub const HELD: u64 = 1024;

// The record is so many words: those below, in their order. Words and no struct, since a C host lends them and the theorems speak of them.
pub const WORDS: usize = 36;

// From here on stand the marks of the acknowledged: number n at bit n % 64 of word n / 64 % 16, so that a send moves nothing.
const AT_ACKED: usize = 0;

// From here on stand the marks of the lost, likewise.
const AT_LOST: usize = 16;

// This word is the next number to send: so many were sent.
const AT_NEXT: usize = 32;

// This word is how many of the forgotten were acknowledged.
const AT_ACKED_BEFORE: usize = 33;

// This word is how many of the forgotten were lost.
const AT_LOST_BEFORE: usize = 34;

// This word is the largest acknowledged number, as an end: one past it, and 0 for none.
const AT_END: usize = 35;

// What a send answers: 0 and the number sent, or the refusal and 0.
#[repr(C)]
#[derive(Clone, Copy)]
pub struct Sent {
    pub result: u64,
    pub number: u64,
}

// What a frame that is heard answers: 0, its length in bytes, and how many numbers were listed as acknowledged and as lost; or the refusal and 0.
#[repr(C)]
#[derive(Clone, Copy)]
pub struct Reply {
    pub result: u64,
    pub length: u64,
    pub acked: u64,
    pub lost: u64,
}
