// The packet call: 1, 5, then 6 or 7; an accepted packet is marked, and an ack-eliciting one may set a cause.
ghost use Rattle.std.specs.Prelude.{◌≡◌, ◌+◌, ◌≤◌, true};
ghost use Rattle.wire.specs.Numbers.{limit};
ghost use Rattle.wire.specs.Refusals.{refusal_number};
ghost use Rattle.receiver.specs.Record.{consistent};
ghost use Rattle.receiver.specs.Packet.{record_over, answer_over, packet_refusal, pending_after, packet_after, packet_call};

use crate::{Answer, Pending, Receiver};
use ecn::Mark;
use seen::{Micros, Seen, numbers};
use window::Window;
use wire::Refusal;

impl Pending {
    // With one ack-eliciting packet more; at 2^62 the count stays.
    #[tactic(auto, unfolding(crate::specs::Packet::pending_after))]
    fn with(self, number: u64, time: Micros) -> Pending
        requires { (number ≤ limit) × (self.count ≤ limit + 1) }
        ensures { result ≡ pending_after self number time }
    {
        let end = numbers::larger_of(self.end, number + 1);
        let count = self.count;
        if count == 0 {
            return Pending {
                count: 1,
                end,
                first: time,
            };
        }
        let first = self.first;
        if count == numbers::MOST {
            return Pending { count, end, first };
        }
        let more = count + 1;
        Pending {
            count: more,
            end,
            first,
        }
    }
}

impl Receiver {
    // Whether a packet is accepted.
    fn check_packet(self, words: &[u64; 16], number: u64, time: Micros) -> Result<(), Refusal>
        ensures { refusal_number result ≡ packet_refusal (record_over words.now self) number time }
    {
        if !self.rest_consistent() {
            return Err(Refusal::Inconsistent);
        }
        let seen = self.seen;
        if !seen.numbers_obey() {
            return Err(Refusal::Inconsistent);
        }
        if !seen.marks_fit(words) {
            return Err(Refusal::Inconsistent);
        }
        if !numbers::is_small(number) {
            return Err(Refusal::TooLarge);
        }
        if !numbers::is_small(time.0) {
            return Err(Refusal::TooLarge);
        }
        seen.check_in(words, number)
    }

    // The record with an accepted packet, which is marked in the lent words.
    fn with(
        self,
        words: &mut [u64; 16],
        number: u64,
        time: Micros,
        eliciting: bool,
        mark: Mark,
    ) -> Receiver
        requires { (number ≤ limit) × (consistent (record_over words.old self) ≡ true) }
        ensures { record_over words.new result ≡ packet_after (record_over words.old self) number time eliciting mark }
    {
        let before = self.seen;
        let seen = before.with_in(words, number, time);
        let earlier = self.totals;
        let totals = earlier.counted(mark);
        let ce = mark.is_ce();
        let last = u64::from(ce);
        let waiting = self.pending;
        if !eliciting {
            let agreed = self.agreed;
            let limits = self.limits;
            return Receiver {
                seen,
                pending: waiting,
                agreed,
                limits,
                acknowledged: self.acknowledged,
                highest: self.highest,
                ce: last,
                cause: self.cause,
                totals,
            };
        }
        let pending = waiting.with(number, time);
        let highest = numbers::larger_of(self.highest, number + 1);
        let cause = self.cause_after(words, number, ce, seen, pending);
        let agreed = self.agreed;
        let limits = self.limits;
        Receiver {
            seen,
            pending,
            agreed,
            limits,
            acknowledged: self.acknowledged,
            highest,
            ce: last,
            cause,
            totals,
        }
    }

    // The packet call at the lent words of the window; the window of the record that it hands back is as it came.
    fn packet_in(
        self,
        words: &mut [u64; 16],
        number: u64,
        time: Micros,
        eliciting: bool,
        mark: Mark,
    ) -> Answer
        ensures { answer_over words.new result ≡ packet_call (record_over words.old self) number time eliciting mark }
    {
        match self.check_packet(words, number, time) {
            Ok(()) => Answer {
                result: 0,
                next: self.with(words, number, time, eliciting, mark),
            },
            Err(refusal) => Answer::refused(refusal, self),
        }
    }

    // A packet arrives: its number, its time, whether it is ack-eliciting, and its mark.
    // The window's words are taken out once, lent to all that reads or marks them, and put back once: a window that goes by value is copied each time.
    pub fn packet(self, number: u64, time: Micros, eliciting: bool, mark: Mark) -> Answer
        ensures { result ≡ packet_call self number time eliciting mark }
    {
        let before = self.seen;
        let window = before.window;
        let mut words = window.words;
        let answer = self.packet_in(&mut words, number, time, eliciting, mark);
        let rest = answer.next;
        let after = rest.seen;
        let moved = Window { words };
        let arrived = after.arrived;
        let seen = Seen {
            window: moved,
            end: after.end,
            arrived,
            confirmed: after.confirmed,
        };
        let mut next = rest;
        next.seen = seen;
        Answer {
            result: answer.result,
            next,
        }
    }
}
