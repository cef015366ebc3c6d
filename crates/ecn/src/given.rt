// What a host gives as a plain number or as a truth value, and the enum that the calls take for it.
ghost use Rattle.std.specs.Prelude.{◌≡◌};
ghost use Rattle.ecn.specs.Given.{mark_of, kind_of};

use crate::{Kind, Mark};

// The mark that the ECN field of the IP header tells (RFC 3168). Only the two low bits count, so that a host may hand over the whole traffic class byte.
impl From<u64> for Mark {
    ghost from_gives = { λ ecn mark. mark ≡ mark_of ecn };

    #[tactic(auto, unfolding(crate::specs::Given::mark_of))]
    fn from(ecn: u64) -> Mark {
        match ecn % 4 {
            0 => Mark::None,
            1 => Mark::Ect1,
            2 => Mark::Ect0,
            _ => Mark::Ce,
        }
    }
}

// The type of an ACK: 03 with counts, 02 without.
impl From<bool> for Kind {
    ghost from_gives = { λ counts kind. kind ≡ kind_of counts };

    fn from(counts: bool) -> Kind {
        if counts { Kind::Counts } else { Kind::Plain }
    }
}
