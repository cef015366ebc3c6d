// How many of the last records fit.
ghost use Rattle.std.specs.Prelude.{◌≡◌};
ghost use Rattle.entries.specs.Fitting.{fitting_of};

use crate::{Profile, record_size, records_in};

// How many of the given records are kept: the longest run of last ones, at most so many, that fits the room with its count.
// A count takes less than a record, so where as many as the room holds do not fit with their count, one fewer do.
pub fn fitting(profile: Profile, given: usize, most: usize, room: usize) -> usize
    ensures { result ≡ fitting_of profile given most room }
{
    let k = given.min(most).min(records_in(profile, room));
    if k == 0 {
        return 0;
    }
    if wire::width(k as u64) <= room - record_size(profile) * k {
        return k;
    }
    k - 1
}
