// An event record, and the receiver's answer to it.
ghost use Rattle.std.specs.Prelude.{◌≡◌};
ghost use Rattle.events.specs.Events.{read_event, is_eliciting, ecn_mark, write_call, event_call, record_call};

use crate::Event;
use ecn::{Kind, Mark};
use receiver::{Answer, Receiver};
use seen::Micros;
use wire::Refusal;

// Reads the event at the start of s; 2 where the bytes end inside it.
pub fn read_event(s: &[u8]) -> Result<Event, Refusal>
    ensures { result ≡ read_event s.now }
{
    let Ok(number) = wire::read_fixed8(s, 8) else {
        return Err(Refusal::Ends);
    };
    let Ok(time) = wire::read_fixed8(s, 16) else {
        return Err(Refusal::Ends);
    };
    Ok(Event {
        kind: s[0],
        flags: s[1],
        number: number.value,
        time: Micros(time.value),
    })
}

// The write call, of type 02, in a room of 1,200 bytes; what it wrote is dropped.
fn write(receiver: Receiver, time: Micros) -> Answer
    ensures { result ≡ write_call receiver time }
{
    let mut room = [0u8; 1200];
    let wrote = receiver.write(time, Kind::Plain, &mut room);
    let next = wrote.next;
    Answer {
        result: wrote.result,
        next,
    }
}

impl Event {
    fn is_eliciting(self) -> bool
        ensures { result ≡ is_eliciting self }
    {
        self.flags % 2 == 1
    }

    // The first of CE, ECT(0) and ECT(1) whose flag is set.
    #[tactic(auto, unfolding(crate::specs::Events::ecn_mark))]
    fn ecn_mark(self) -> Mark
        ensures { result ≡ ecn_mark self }
    {
        let flags = self.flags;
        if flags / 2 % 2 == 1 {
            Mark::Ce
        } else if flags / 4 % 2 == 1 {
            Mark::Ect0
        } else if flags / 8 % 2 == 1 {
            Mark::Ect1
        } else {
            Mark::None
        }
    }

    // The receiver's answer to the event.
    fn call(self, receiver: Receiver) -> Answer
        ensures { result ≡ event_call self receiver }
    {
        match self.kind {
            1 => receiver.packet(self.number, self.time, self.is_eliciting(), self.ecn_mark()),
            2 => receiver.timer(self.time),
            3 => write(receiver, self.time),
            4 => receiver.immediate(),
            _ => Answer {
                result: 3,
                next: receiver,
            },
        }
    }
}

// The receiver's answer to the record at the start of s.
pub fn answer(s: &[u8], receiver: Receiver) -> Answer
    ensures { result ≡ record_call s.now receiver }
{
    match read_event(s) {
        Ok(event) => event.call(receiver),
        Err(refusal) => Answer {
            result: refusal.number(),
            next: receiver,
        },
    }
}
