// The header's numbers, each read as soon as it is whole: where it stands, or behind the bytes that are carried.
ghost use Rattle.std.specs.Prelude.{◌≡◌, List, ◌++◌, ℕ, ◌+◌, ◌≤◌, length, take, drop, Err};
ghost use Rattle.wire.specs.declared.Refusal.TheVariants.{Ends};
ghost use Rattle.wire.specs.Numbers.{read_number};
ghost use Rattle.pieces.specs.Reading.{shifted, walked_to, still_at};
ghost use Rattle.pieces.specs.Record.{held_in, stand_in, state_in, moved_in};
ghost use Rattle.pieces.specs.Serving.{Sits, Served, Past};

use crate::words::{come, held_in, keep};
use crate::{AT_NUMBERS, CARRIED, Marks, NUMBERS, RECORDS, REFUSED, WORDS, Walked};
use entries::Profile;
use report::{judge_field, wanted};
use wire::{Number, Refusal};

// The longest field is so many bytes long.
const LONGEST: usize = 8;

// The bytes that are carried, with more behind them.
pub(crate) fn joined(held: [u8; CARRIED], carried: usize, more: &[u8]) -> [u8; CARRIED]
    requires { carried + length more.now ≤ 24 }
    ensures { (length result ≡ 24) × (take (carried + length more.now) result ≡ take carried held ++ more.now) }
{
    let mut next = held;
    let end = carried + more.len();
    next[carried..end].copy_from_slice(more);
    next
}

// The field that begins with the bytes carried and goes on in the part.
fn next_field(state: &[u64; WORDS], carried: usize, part: &[u8]) -> Result<Number, Refusal>
    requires { (carried ≤ 8) × (read_number (take carried (held_in state.now)) 0 ≡ Err Ends) }
    ensures { result ≡ shifted carried 0 (read_number (take carried (held_in state.now) ++ part.now) 0) }
{
    if carried == 0 {
        return wire::read_number(part, 0);
    }
    let more = (LONGEST - carried).min(part.len());
    let held = held_in(state, carried);
    let field = joined(held, carried, &part[..more]);
    let length = carried + more;
    let Ok(
        Number {
            value,
            next,
            shortest,
        },
    ) = wire::read_number(&field[..length], 0)
    else {
        return Err(Refusal::Ends);
    };
    Ok(Number {
        value,
        next: next - carried,
        shortest,
    })
}

// A place where the header's numbers lead to.
fn walked(stage: u64, left: u64, count: usize, carried: usize, taken: usize) -> Walked
    ensures { result ≡ walked_to stage left count carried taken }
{
    let now = Marks {
        stage,
        left,
        last: 0,
        above: 0,
        count,
        carried,
    };
    Walked {
        now,
        taken,
        records: 0,
    }
}

// Takes the header's numbers, each judged as soon as it is whole by the step of the whole reader. What is left of a field is carried.
// Only the first field may begin with bytes that are carried: it is read before the loop, which then asks for them no more.
pub(crate) fn take_numbers(
    profile: Profile,
    from: Marks,
    state: &mut [u64; WORDS],
    part: &[u8],
) -> Walked
    requires { (Sits profile (stand_in from state.old)) × (from.stage ≡ 0) }
    ensures { ((out : List ℕ) → Served profile (state_in (stand_in from state.old)) part.now out (moved_in result state.new) out) × Past (state_in (stand_in result.now state.new)) (drop result.taken part.now) }
{
    let mut count = from.count;
    let mut carried = from.carried;
    let mut at: usize = 0;
    let mut field = next_field(state, carried, part);
    while at < part.len() {
        let Ok(
            Number {
                value,
                next,
                shortest,
            },
        ) = field
        else {
            let end = carried + (part.len() - at);
            keep(state, carried, &part[at..]);
            return walked(NUMBERS, 0, count, end, part.len());
        };
        if let Err(refusal) = judge_field(profile, come(state, count), value, shortest) {
            return walked(REFUSED, refusal.number(), count, carried, next);
        }
        state[AT_NUMBERS + count] = value;
        count += 1;
        carried = 0;
        at = next;
        if wanted(profile, come(state, count)) <= count {
            return walked(RECORDS, value, count, carried, at);
        }
        field = wire::read_number(part, at);
    }
    walked(NUMBERS, 0, count, carried, at)
}

// The same where the header is whole already, or not.
pub(crate) fn through_header(
    profile: Profile,
    from: Marks,
    state: &mut [u64; WORDS],
    part: &[u8],
) -> Walked
    requires { Sits profile (stand_in from state.old) }
    ensures { ((out : List ℕ) → Served profile (state_in (stand_in from state.old)) part.now out (moved_in result state.new) out) × Past (state_in (stand_in result.now state.new)) (drop result.taken part.now) }
{
    let stage = from.stage;
    if stage == NUMBERS {
        return take_numbers(profile, from, state, part);
    }
    as_it_was(from)
}

// No byte is taken.
pub(crate) fn as_it_was(from: Marks) -> Walked
    ensures { result ≡ still_at from }
{
    Walked {
        now: from,
        taken: 0,
        records: 0,
    }
}
