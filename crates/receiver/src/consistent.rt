// What consistent means: refusal 1 is given exactly for a record that is not.
// What was received is tested last: its window costs most.
ghost use Rattle.std.specs.Prelude.{◌≡◌, eqb, leb};
ghost use Rattle.wire.specs.Bytes.{pick};
ghost use Rattle.receiver.specs.Record.{pending_consistent, agreed_consistent, rest_consistent, consistent};

use crate::{Agreed, Limits, Pending, Receiver};
use seen::numbers;

impl Pending {
    #[tactic(auto, unfolding(crate::specs::Record::pending_consistent))]
    fn consistent(self, end: u64) -> bool
        ensures { result ≡ pending_consistent self end }
    {
        numbers::is_small_end(self.count)
            && numbers::is_small(self.first.0)
            && self.end <= end
            && (self.count == 0) == (self.end == 0)
    }
}

impl Agreed {
    #[tactic(auto, unfolding(crate::specs::Record::agreed_consistent))]
    fn consistent(self, limits: Limits) -> bool
        ensures { result ≡ agreed_consistent self limits }
    {
        numbers::is_small(self.threshold)
            && numbers::is_small(self.reordering)
            && numbers::is_small_end(self.sequence)
            && limits.allow(self.delay)
    }
}

impl Receiver {
    // Whether the cause is one that there is; before the first packet there is none.
    fn cause_consistent(self) -> bool
        ensures { result ≡ pick (eqb self.seen.end 0) (eqb self.cause 0) (leb self.cause 5) }
    {
        if self.seen.end == 0 {
            return self.cause == 0;
        }
        self.cause <= 5
    }

    // Whether the record is consistent but for what was received, of which only L is looked at.
    pub(crate) fn rest_consistent(self) -> bool
        ensures { result ≡ rest_consistent self }
    {
        let end = self.seen.end;
        self.pending.consistent(end)
            && self.limits.allowed()
            && self.agreed.consistent(self.limits)
            && self.totals.obey()
            && self.acknowledged <= end
            && self.highest <= end
            && self.cause_consistent()
    }

    // Whether the record is consistent.
    #[tactic(auto, unfolding(crate::specs::Record::consistent))]
    pub fn consistent(self) -> bool
        ensures { result ≡ consistent self }
    {
        self.rest_consistent() && self.seen.consistent()
    }
}
