// Why an acknowledgment is due: the lines of the packet rule, count, order and congestion. The words of the window that is searched are lent.
ghost use Rattle.std.specs.Prelude.{◌≡◌, ◌<◌, ◌≤◌};
ghost use Rattle.wire.specs.Numbers.{limit};
ghost use Rattle.window.specs.Window.{places};
ghost use Rattle.seen.specs.Received.{over};
ghost use Rattle.receiver.specs.Packet.{InRange, out_of_order, gap_reached, order, congestion, first_cause, cause_after};

use crate::{Pending, Receiver};
use seen::{Seen, numbers};

// R = 1 (RFC 9000 13.2.1): below the earlier H, or above it with a number between missing.
fn out_of_order(words: &[u64; 16], seen: Seen, number: u64, highest: u64) -> bool
    requires { number ≤ limit }
    ensures { result ≡ out_of_order (over words.now seen) number highest }
{
    if number <= highest {
        return number + 1 < highest;
    }
    seen.first_missing_in(words, highest, number).is_some()
}

// R from 2 up: the smallest unreported missing number m has U - m >= R.
fn gap_reached(words: &[u64; 16], seen: Seen, reach: u64, acknowledged: u64, end: u64) -> bool
    requires { (reach < places) × InRange seen end }
    ensures { result ≡ gap_reached (over words.now seen) reach acknowledged end }
{
    let from = numbers::minus_or_zero(acknowledged, reach);
    match seen.first_missing_in(words, from, end - 1) {
        Some(place) => place + seen.end + reach <= end + window::LAST,
        None => false,
    }
}

// Cause 3, by the reordering threshold.
fn order(
    words: &[u64; 16],
    seen: Seen,
    reordering: u64,
    number: u64,
    highest: u64,
    acknowledged: u64,
    end: u64,
) -> bool
    requires { (number ≤ limit) × InRange seen end }
    ensures { result ≡ order (over words.now seen) reordering number highest acknowledged end }
{
    match reordering {
        0 => false,
        1 => out_of_order(words, seen, number, highest),
        2..=1023 => gap_reached(words, seen, reordering, acknowledged, end),
        _ => gap_reached(words, seen, 1023, acknowledged, end),
    }
}

impl Receiver {
    // Cause 4: this packet has CE, and no threshold frame was accepted yet (02, No. 1), or the packet accepted before it had not, or there was none.
    #[tactic(auto, unfolding(crate::specs::Packet::congestion))]
    fn congestion(self, ce: bool) -> bool
        ensures { result ≡ congestion self ce }
    {
        ce && (self.agreed.sequence == 0 || self.seen.end == 0 || self.ce == 0)
    }

    // The first line that holds for an ack-eliciting packet; the lent words, seen and pending are as it leaves them.
    fn first_cause(
        self,
        words: &[u64; 16],
        number: u64,
        ce: bool,
        seen: Seen,
        pending: Pending,
    ) -> u64
        requires { (number ≤ limit) × InRange seen pending.end }
        ensures { result ≡ first_cause self number ce (over words.now seen) pending }
    {
        let agreed = self.agreed;
        if agreed.threshold < pending.count {
            return 2;
        }
        if order(
            words,
            seen,
            agreed.reordering,
            number,
            self.highest,
            self.acknowledged,
            pending.end,
        ) {
            return 3;
        }
        if self.congestion(ce) {
            return 4;
        }
        0
    }

    // A cause, once set, stays.
    pub(crate) fn cause_after(
        self,
        words: &[u64; 16],
        number: u64,
        ce: bool,
        seen: Seen,
        pending: Pending,
    ) -> u64
        requires { (number ≤ limit) × InRange seen pending.end }
        ensures { result ≡ cause_after self number ce (over words.now seen) pending }
    {
        let cause = self.cause;
        match cause {
            0 => self.first_cause(words, number, ce, seen, pending),
            _ => cause,
        }
    }
}
