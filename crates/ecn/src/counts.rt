// The totals of accepted packets by their marks, and the counts that an ACK of type 03 tells (02, No. 2).
ghost use Rattle.std.specs.Prelude.{◌≡◌, ◌+◌, min};
ghost use Rattle.wire.specs.Numbers.{limit};
ghost use Rattle.ecn.specs.Totals.{is_ce, totals_consistent, totals_after, tail_of};

use crate::{Kind, Mark, Totals};
use frames::Counts;
use seen::numbers;

// A total with one packet more; at 2^62 - 1 it stays.
fn one_more(total: u64) -> u64
    ensures { result ≡ min (total + 1) limit }
{
    total.saturating_add(1).min(wire::LARGEST)
}

impl Mark {
    pub fn is_ce(self) -> bool
        ensures { result ≡ is_ce self }
    {
        matches!(self, Mark::Ce)
    }
}

impl Totals {
    #[tactic(auto, unfolding(crate::specs::Totals::totals_consistent))]
    pub fn obey(self) -> bool
        ensures { result ≡ totals_consistent self }
    {
        numbers::all_small(self.ect0, self.ect1, self.ce, self.unmarked)
    }

    // With one accepted packet more that carried the mark.
    #[tactic(auto, unfolding(crate::specs::Totals::totals_after))]
    pub fn counted(self, mark: Mark) -> Totals
        ensures { result ≡ totals_after self mark }
    {
        let mut next = self;
        match mark {
            Mark::None => next.unmarked = one_more(self.unmarked),
            Mark::Ect0 => next.ect0 = one_more(self.ect0),
            Mark::Ect1 => next.ect1 = one_more(self.ect1),
            Mark::Ce => next.ce = one_more(self.ce),
        }
        next
    }

    // What an ACK of that type has after its ranges: the totals as they stand.
    pub fn said(self, kind: Kind) -> Option<Counts>
        ensures { result ≡ tail_of kind self }
    {
        match kind {
            Kind::Plain => None,
            Kind::Counts => Some(Counts {
                ect0: self.ect0,
                ect1: self.ect1,
                ce: self.ce,
            }),
        }
    }
}
