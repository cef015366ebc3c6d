// For the archive of crate host: numbers and frames, read and written. The crates host_codec_c and host_codec_as export them.
// Where a lower crate answers a Result, a host gets the paper's number and the case's values, and 0 for what the case has not.
// That is a function for each answer and no `From`, which is no plainer: the function's name and its contract's are one.

#![tactic(auto)]

mod codec;
mod numbers;

pub use codec::{
    ack_out, frequency_out, lumbixet_put_frequency, lumbixet_put_immediate, lumbixet_read_ack,
    lumbixet_read_frequency, lumbixet_read_immediate,
};
pub use numbers::{lumbixet_put_number, lumbixet_read_number};

// A number that was read, the place after it, and 1 where its form was the shortest.
#[repr(C)]
#[derive(Clone, Copy, Default)]
pub struct NumberOut {
    pub result: u64,
    pub value: u64,
    pub next: u64,
    pub shortest: u64,
}

// What a writer of numbers and frames answers: the place after what was written.
#[repr(C)]
#[derive(Clone, Copy, Default)]
pub struct PutOut {
    pub result: u64,
    pub next: u64,
}

// The four values of an ACK_FREQUENCY frame, and its length.
#[repr(C)]
#[derive(Clone, Copy, Default)]
pub struct FrequencyOut {
    pub result: u64,
    pub sequence: u64,
    pub threshold: u64,
    pub delay: u64,
    pub reordering: u64,
    pub used: u64,
}

// An IMMEDIATE_ACK frame's length.
#[repr(C)]
#[derive(Clone, Copy, Default)]
pub struct ImmediateOut {
    pub result: u64,
    pub used: u64,
}

// An ACK frame's numbers, how many ranges were written to the lent slice, the frame's length, and its counts where it is of type 03.
#[repr(C)]
#[derive(Clone, Copy, Default)]
pub struct AckOut {
    pub result: u64,
    pub largest: u64,
    pub delay: u64,
    pub ranges: u64,
    pub used: u64,
    // This is 1 where the frame was of type 03, and else 0, and so are the three counts.
    pub counts: u64,
    pub ect0: u64,
    pub ect1: u64,
    pub ce: u64,
}
