// What was received: the largest number L, when it arrived, which numbers of the window were received, and the floor below which none is reported.
// Carries of "The receiver record" of document 01 the window, refusals 6 and 7 and the missing numbers, and of document 02 the floor of No. 12 (RFC 9000 section 13.2.4).
// Every public function takes any record, any number and any time.

#![tactic(auto)]

use window::Window;

mod consistent;
mod marks;
pub mod numbers;

// Microseconds: every time, the own minimum delay and the delay in force (004).
#[repr(C)]
#[derive(Clone, Copy)]
pub struct Micros(pub u64);

// What was received. What may be absent is kept as an end, since an Option has no C layout: one past the number, and 0 for none.
#[repr(C)]
#[derive(Clone, Copy)]
pub struct Seen {
    // The window marks which of the last 1,024 numbers were received: place 1023 is L, place 1023 - d is L - d.
    pub window: Window,
    // This is the end of L, the largest number that was received.
    pub end: u64,
    // L arrived at this time.
    pub arrived: Micros,
    // This is the record's own floor (02, No. 12): numbers below it were confirmed by the sender and are reported no more.
    pub confirmed: u64,
}
