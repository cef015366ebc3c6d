// A file piece by piece: reports, each after its length.
ghost use Rattle.std.specs.Prelude.{◌≡◌, ◌≤◌, length};
ghost use Rattle.totals.specs.Adding.{over, Held};
ghost use Rattle.totals.specs.Files.{start, step_of, stepped, taken, moved};

use crate::{Brought, LONGEST, PLACES, Standing, Step, TOO_LONG, Taken, Totals};

// A report comes after so many bytes of length.
const LENGTH: usize = 4;

impl Standing {
    // Before the first report.
    pub fn start() -> Standing
        ensures { result ≡ start }
    {
        let none = [0u64; PLACES];
        let totals = Totals {
            sums: none,
            full: none,
        };
        Standing { totals, skip: 0 }
    }

    // Takes all that is whole from the start of s.
    // The sums are taken out once, lent to all that adds to them, and put back once: by value they are copied for each report.
    pub fn piece(self, s: &[u8]) -> Taken
        ensures { (result ≡ taken self s.now) × (result.used ≤ length s.now) }
    {
        let totals = self.totals;
        let mut sums = totals.sums;
        let mut full = totals.full;
        let mut skip = self.skip;
        let mut at: usize = 0;
        // Each step takes another number of bytes, so that no range or iterator says where it stands.
        while at < s.len() {
            let step = step_in(&mut sums, &mut full, skip, &s[at..]);
            skip = step.skip;
            if step.used == 0 {
                break;
            }
            at += step.used;
        }
        let added = Totals { sums, full };
        let next = Standing {
            totals: added,
            skip,
        };
        Taken { next, used: at }
    }
}

// Takes one thing from the start of s: bytes to be skipped, a report, or the length of one that is too long.
// Nothing is taken where the report is not whole.
fn step_in(sums: &mut [u64; PLACES], full: &mut [u64; PLACES], skip: usize, s: &[u8]) -> Step
    requires { Held (over sums.old full.old) }
    ensures { stepped (over sums.new full.new) result ≡ step_of (record { totals = over sums.old full.old; skip = skip }) s.now }
{
    if 0 < skip {
        let used = skip.min(s.len());
        return Step {
            skip: skip - used,
            used,
        };
    }
    let Ok(field) = wire::read_fixed4(s, 0) else {
        return Step { skip, used: 0 };
    };
    let length = field.value as usize;
    if LONGEST < length {
        let brought = Brought::refused(TOO_LONG);
        brought.add_in(sums, full);
        return Step {
            skip: length,
            used: LENGTH,
        };
    }
    let end = LENGTH + length;
    if s.len() < end {
        return Step { skip, used: 0 };
    }
    let brought = Brought::by(&s[LENGTH..end]);
    brought.add_in(sums, full);
    Step { skip: 0, used: end }
}

// Moves what stands from used up to end to the start of buf; nothing where there is no such part.
pub fn keep_rest(buf: &mut [u8], used: usize, end: usize)
    ensures { buf.new ≡ moved buf.old used end }
{
    if used <= end && end <= buf.len() {
        buf.copy_within(used..end, 0);
    }
}
