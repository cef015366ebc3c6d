// The newest lost object of a whole report: what the full reader judges before the entries, then the search.
ghost use Rattle.std.specs.Prelude.{◌≡◌};
ghost use Rattle.newest.specs.Newest.{newest_lost, newest_by};

use crate::Lost;
use crate::search::search;
use entries::{Profile, record_size};
use report::read_head;
use wire::Refusal;

// The newest lost object of a report of a profile. Here 13 comes before 12.
fn newest_as(profile: Profile, s: &[u8]) -> Result<Option<Lost>, Refusal>
    ensures { result ≡ newest_lost profile s.now }
{
    let head = read_head(profile, s)?;
    let at = head.next;
    let count = head.entries as usize;
    let rest = s.len() - at;
    let size = record_size(profile);
    if rest / size < count {
        return Err(Refusal::Ends);
    }
    if size * count < rest {
        return Err(Refusal::BytesRemain);
    }
    search(profile, &s[at..], count)
}

// The newest lost object of a report, none, or the refusal.
pub fn newest_lost(profile: u64, s: &[u8]) -> Result<Option<Lost>, Refusal>
    ensures { result ≡ newest_by profile s.now }
{
    let profile = Profile::try_from(profile)?;
    newest_as(profile, s)
}
