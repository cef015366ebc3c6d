// Opening, timer, threshold frame and IMMEDIATE_ACK.
ghost use Rattle.std.specs.Prelude.{◌≡◌, ◌<◌, ◌&&◌};
ghost use Rattle.wire.specs.Bytes.{pick};
ghost use Rattle.wire.specs.Refusals.{number_of, refusal_number};
ghost use Rattle.seen.specs.Numbers.{small};
ghost use Rattle.receiver.specs.Packet.{standing};
ghost use Rattle.receiver.specs.Calls.{opened, usual, open_call, timer_due, timer_refusal, timer_call, immediate_call, heard, threshold_call};
ghost use Rattle.receiver.specs.declared.Verdict.TheVariants.{Stale, Refused};

use crate::{Agreed, Answer, Heard, Limits, Millis, Pending, Receiver, Verdict};
use ecn::Totals;
use seen::{Micros, Seen, numbers};
use window::Window;
use wire::Refusal;

// A cause, once set, stays.
fn standing(cause: u64, new: u64) -> u64
    ensures { result ≡ standing cause new }
{
    match cause {
        0 => new,
        _ => cause,
    }
}

impl Heard {
    // A refusal's number and the record as it came.
    fn refused(refusal: Refusal, kept: Receiver) -> Heard
        ensures { result ≡ heard (Refused (number_of refusal)) kept kept }
    {
        Heard {
            verdict: Verdict::Refused(refusal.number()),
            next: kept,
        }
    }

    // A stale frame changes nothing: its values are in no part of the record.
    fn stale(kept: Receiver) -> Heard
        ensures { result ≡ heard Stale kept kept }
    {
        Heard {
            verdict: Verdict::Stale,
            next: kept,
        }
    }
}

impl Receiver {
    // The record of an opening.
    fn opened(threshold: u64, reordering: u64, maximum: Millis, minimum: Micros) -> Receiver
        requires { maximum.0 < 16384 }
        ensures { result ≡ opened threshold reordering maximum minimum }
    {
        let window = Window::empty();
        let delay = maximum.micros();
        Receiver {
            seen: Seen {
                window,
                end: 0,
                arrived: Micros(0),
                confirmed: 0,
            },
            pending: Pending {
                count: 0,
                end: 0,
                first: Micros(0),
            },
            agreed: Agreed {
                threshold,
                reordering,
                delay,
                sequence: 0,
            },
            limits: Limits { maximum, minimum },
            acknowledged: 0,
            highest: 0,
            ce: 0,
            cause: 0,
            totals: Totals {
                ect0: 0,
                ect1: 0,
                ce: 0,
                unmarked: 0,
            },
        }
    }

    // The usual opening beside a refusal number.
    fn refused_opening(refusal: Refusal) -> Answer
        ensures { result ≡ record { result = number_of refusal; next = usual } }
    {
        Answer::refused(refusal, Receiver::opened(1, 1, Millis(25), Micros(1000)))
    }

    // Opens a receiver: T, R, the own maximum delay and the own minimum delay.
    pub fn open(threshold: u64, reordering: u64, maximum: Millis, minimum: Micros) -> Answer
        ensures { result ≡ open_call threshold reordering maximum minimum }
    {
        if !numbers::all_small(threshold, reordering, maximum.0, minimum.0) {
            return Receiver::refused_opening(Refusal::TooLarge);
        }
        let limits = Limits { maximum, minimum };
        if !limits.allowed() {
            return Receiver::refused_opening(Refusal::DelayRule);
        }
        let next = Receiver::opened(threshold, reordering, maximum, minimum);
        Answer { result: 0, next }
    }

    // An IMMEDIATE_ACK frame arrives.
    pub fn immediate(self) -> Answer
        ensures { result ≡ immediate_call self }
    {
        if !self.consistent() {
            return Answer::refused(Refusal::Inconsistent, self);
        }
        if self.seen.end == 0 {
            return Answer::refused(Refusal::NothingReceived, self);
        }
        let mut next = self;
        next.cause = standing(self.cause, 1);
        Answer { result: 0, next }
    }

    // Whether the time since the first unacknowledged arrival has reached the delay in force.
    #[tactic(auto, unfolding(crate::specs::Calls::timer_due))]
    fn timer_due(self, time: Micros) -> bool
        ensures { result ≡ timer_due self time }
    {
        let waited = numbers::minus_or_zero(time.0, self.pending.first.0);
        self.pending.count != 0 && self.agreed.delay.0 <= waited
    }

    // Whether the timer call is accepted. The two halves of `consistent` are asked by themselves: whole it has several callers, is left outside by the compiler, and has the record copied for it.
    #[tactic(auto, unfolding(crate::specs::Calls::timer_refusal))]
    fn check_timer(self, time: Micros) -> Result<(), Refusal>
        ensures { refusal_number result ≡ timer_refusal self time }
    {
        if !self.rest_consistent() {
            return Err(Refusal::Inconsistent);
        }
        let seen = self.seen;
        if !seen.consistent() {
            return Err(Refusal::Inconsistent);
        }
        if !numbers::is_small(time.0) {
            return Err(Refusal::TooLarge);
        }
        Ok(())
    }

    // The cause after the timer call; a refused one leaves it.
    fn timer_cause(self, accepted: bool, time: Micros) -> u64
        ensures { result ≡ pick accepted (standing self.cause (pick (timer_due self time) 5 0)) self.cause }
    {
        if accepted && self.timer_due(time) {
            return standing(self.cause, 5);
        }
        self.cause
    }

    // The timer is looked at. Refused or not, the next record is built in one place, so that of a lent one the cause alone is stored.
    pub fn timer(self, time: Micros) -> Answer
        ensures { result ≡ timer_call self time }
    {
        let checked = self.check_timer(time);
        let cause = self.timer_cause(checked.is_ok(), time);
        let result = wire::refusal_number(&checked);
        let mut next = self;
        next.cause = cause;
        Answer { result, next }
    }

    // An ACK_FREQUENCY frame arrives: its sequence, T, requested delay and R.
    // The record with its values is at hand before it is judged; a refused or stale frame hands back the one that came.
    pub fn threshold(self, sequence: u64, threshold: u64, delay: Micros, reordering: u64) -> Heard
        ensures { result ≡ threshold_call self sequence threshold delay reordering }
    {
        if !self.consistent() {
            return Heard::refused(Refusal::Inconsistent, self);
        }
        if !numbers::all_small(sequence, threshold, delay.0, reordering) {
            return Heard::refused(Refusal::TooLarge, self);
        }
        let mut next = self;
        next.agreed = Agreed {
            threshold,
            reordering,
            delay,
            sequence: sequence + 1,
        };
        if !self.limits.allow(delay) {
            return Heard::refused(Refusal::DelayRule, self);
        }
        if sequence < self.agreed.sequence {
            return Heard::stale(self);
        }
        Heard {
            verdict: Verdict::Accepted,
            next,
        }
    }
}
