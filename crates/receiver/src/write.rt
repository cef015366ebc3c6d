// The write call: the ACK frame of what was received, and nothing is left to acknowledge.
ghost use Rattle.std.specs.Prelude.{◌≡◌};
ghost use Rattle.wire.specs.Refusals.{number_of};
ghost use Rattle.receiver.specs.Write.{after_write, write_answer, write_bytes};

use crate::{Receiver, Wrote};
use ecn::Kind;
use seen::Micros;
use wire::Refusal;

impl Wrote {
    // A refusal's number and the record as it came.
    fn refused(refusal: Refusal, kept: Receiver) -> Wrote
        ensures { result ≡ record { result = number_of refusal; length = 0; next = kept } }
    {
        Wrote {
            result: refusal.number(),
            length: 0,
            next: kept,
        }
    }
}

impl Receiver {
    // The record after a written ACK: A = L, U is absent, N and cause are 0.
    fn after_write(self) -> Receiver
        ensures { result ≡ after_write self }
    {
        let mut next = self;
        next.pending.count = 0;
        next.pending.end = 0;
        next.acknowledged = self.seen.end;
        next.cause = 0;
        next
    }

    // Writes an ACK frame of the type that the caller chose at the start of buf. Due or not, it is allowed once something was received.
    pub fn write(self, time: Micros, kind: Kind, buf: &mut [u8]) -> Wrote
        ensures { (result ≡ write_answer self time kind buf.old) × (buf.new ≡ write_bytes self time kind buf.old) }
    {
        if !self.rest_consistent() {
            return Wrote::refused(Refusal::Inconsistent, self);
        }
        let tail = self.totals.said(kind);
        match ack::write_ack(self.seen, time, tail, buf) {
            Ok(length) => Wrote {
                result: 0,
                length: length as u64,
                next: self.after_write(),
            },
            Err(refusal) => Wrote::refused(refusal, self),
        }
    }
}
