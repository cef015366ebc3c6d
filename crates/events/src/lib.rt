// Event records, the receiver's answers to them, and the lines that say so: all that the replay program does between input and output.
// Carries "The replay program" of document 01.
// Every public function takes any bytes, any receiver and any place; what reads and writes stands in the crate `play`.

#![tactic(auto)]

ghost use Rattle.std.specs.Prelude.{◌≡◌};
ghost use Rattle.events.specs.Events.{opening};

use receiver::{Millis, Receiver};
use seen::Micros;

mod calls;
mod lines;
mod pieces;

pub use calls::{answer, read_event};
pub use lines::put_line;
pub use pieces::piece;

// One event: what happened, and what it happened with.
#[derive(Clone, Copy)]
pub struct Event {
    // 1 packet, 2 timer, 3 write, 4 IMMEDIATE_ACK. It stays the record's byte: an unknown kind is an event too, to which the answer is 3.
    pub kind: u8,
    // 1 ack-eliciting, 2 CE; the other bits say nothing.
    pub flags: u8,
    // The packet number; other kinds do not use it.
    pub number: u64,
    // When it happened; IMMEDIATE_ACK does not use it.
    pub time: Micros,
}

// What the records of a piece come to.
#[derive(Clone, Copy)]
pub struct Played {
    // How many of them were answered.
    pub count: usize,
    // How many bytes their lines take at the start of the lent buffer.
    pub length: usize,
    // The receiver after them.
    pub next: Receiver,
}

// The receiver that the program opens.
pub fn opening() -> Receiver
    ensures { result ≡ opening }
{
    let opened = Receiver::open(1000, 3, Millis(25), Micros(1000));
    opened.next
}
