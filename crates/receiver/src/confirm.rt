// The confirm call (02, No. 12): a packet that carried our ACK was itself confirmed, and older numbers are reported no more (RFC 9000 13.2.4).
ghost use Rattle.std.specs.Prelude.{◌≡◌};
ghost use Rattle.receiver.specs.Confirm.{confirm_call};

use crate::{Answer, Receiver};
use seen::numbers;
use wire::Refusal;

impl Receiver {
    // The ACK with largest k is confirmed: numbers up to k are reported no more, L itself excepted.
    #[tactic(auto, unfolding(crate::specs::Confirm::confirm_call, crate::specs::Confirm::confirm_refusal))]
    pub fn confirm(self, k: u64) -> Answer
        ensures { result ≡ confirm_call self k }
    {
        if !self.consistent() {
            return Answer::refused(Refusal::Inconsistent, self);
        }
        if !numbers::is_small(k) {
            return Answer::refused(Refusal::TooLarge, self);
        }
        let before = self.seen;
        if before.end == 0 {
            return Answer::refused(Refusal::NothingReceived, self);
        }
        // A is kept as an end: k is above A, or A is absent.
        if self.acknowledged <= k {
            return Answer::refused(Refusal::NotAcknowledged, self);
        }
        let seen = before.confirm(k);
        let mut next = self;
        next.seen = seen;
        Answer { result: 0, next }
    }
}
