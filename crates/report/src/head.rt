// Where a report's entries begin and how many are announced, for readers that look at few of them.
ghost use Rattle.std.specs.Prelude.{◌≡◌, ◌≤◌, length, IfOk};
ghost use Rattle.report.specs.Reader.{read_numbers};
ghost use Rattle.report.specs.Head.{announced};

use crate::Announced;
use crate::judging::last_of;
use crate::reader::read_numbers;
use entries::Profile;
use wire::Refusal;

// Reads the header's numbers: the place after them and the entry count, or the first fault.
pub fn read_head(profile: Profile, s: &[u8]) -> Result<Announced, Refusal>
    ensures { (result ≡ announced (read_numbers profile s.now)) × IfOk result (λ head. head.next ≤ length s.now) }
{
    let read = read_numbers(profile, s)?;
    let entries = last_of(&read.numbers[..read.count]);
    Ok(Announced {
        next: read.next,
        entries,
    })
}
