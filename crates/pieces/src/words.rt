// The words of the record, read and written where they stand.
ghost use Rattle.std.specs.Prelude.{◌≡◌, List, ◌++◌, ℕ, ◌+◌, ◌%◌, ◌≤◌, length, get_or, take};
ghost use Rattle.entries.specs.Profiles.{number_of};
ghost use Rattle.pieces.specs.Record.{numbers_in, held_in, marks_at, stand_in, state_in, body_in, body_of, words_of, Laid};

use crate::{
    ACCEPTED, AT_ABOVE, AT_CARRIED, AT_COUNT, AT_HELD, AT_LAST, AT_LEFT, AT_NUMBERS, AT_PROFILE,
    AT_STAGE, CARRIED, COUNTING, Marks, NUMBERS, RECORDS, REFUSED, WORDS,
};
use entries::Profile;

// How many words there are. A proof knows of words that are lent only that they may be read and written; here it learns their number.
pub(crate) fn all_of(state: &[u64; WORDS]) -> usize
    ensures { (result ≡ 56) × (length state.now ≡ 56) }
{
    let words = &state[..];
    words.len()
}

// The header's numbers that have come.
pub(crate) fn come(state: &[u64; WORDS], count: usize) -> &[u64]
    requires { count ≤ 25 }
    ensures { (result.now ≡ take count (numbers_in state.now)) × (length state.now ≡ 56) }
{
    let words = &state[..];
    let end = AT_NUMBERS + count;
    &words[AT_NUMBERS..end]
}

// The bytes that are carried, at the start of an array; no others are looked at.
pub(crate) fn held_in(state: &[u64; WORDS], carried: usize) -> [u8; CARRIED]
    requires { carried ≤ 24 }
    ensures { (length result ≡ 24) × (take carried result ≡ take carried (held_in state.now)) }
{
    let mut held = [0u8; CARRIED];
    for i in 0..carried {
        held[i] = (state[AT_HELD + i] % 256) as u8;
    }
    held
}

// Where the words say that the report stands.
pub(crate) fn loaded(state: &[u64; WORDS]) -> Marks
    ensures { result ≡ marks_at state.now }
{
    Marks {
        stage: state[AT_STAGE],
        left: state[AT_LEFT],
        last: state[AT_LAST],
        above: state[AT_ABOVE],
        count: state[AT_COUNT] as usize,
        carried: state[AT_CARRIED] as usize,
    }
}

// The number of a profile, as the first word has it; crate entries turns numbers into profiles, and not back.
fn number_of(profile: Profile) -> u64
    ensures { result ≡ number_of profile }
{
    match profile {
        Profile::One => 1,
        Profile::Two => 2,
    }
}

// More bytes are carried, behind those that are.
pub(crate) fn keep(state: &mut [u64; WORDS], carried: usize, more: &[u8])
    requires { carried + length more.now ≤ 24 }
    ensures { (numbers_in state.new ≡ numbers_in state.old) × (take (carried + length more.now) (held_in state.new) ≡ take carried (held_in state.old) ++ more.now) }
{
    all_of(state);
    for (i, byte) in more.iter().enumerate() {
        state[AT_HELD + carried + i] = *byte as u64;
    }
}

// Where nothing is said by a field it becomes 0.
fn tidied(from: Marks) -> Marks
    ensures { ((w : List ℕ) → body_in (stand_in result w) ≡ body_of (state_in (stand_in from w))) × ((result.count ≤ from.count) × (result.carried ≤ from.carried)) }
{
    let mut next = from;
    let stage = from.stage;
    match stage {
        NUMBERS => {
            next.left = 0;
            next.last = 0;
            next.above = 0;
        }
        RECORDS => {}
        COUNTING => {
            next.last = 0;
            next.above = 0;
            next.carried = 0;
        }
        REFUSED => {
            next.last = 0;
            next.above = 0;
            next.count = 0;
            next.carried = 0;
        }
        _ => {
            next.stage = ACCEPTED;
            next.left = 0;
            next.last = 0;
            next.above = 0;
            next.carried = 0;
        }
    }
    next
}

// So many words of those that hold a byte each hold no more than that.
fn cut(state: &mut [u64; WORDS], carried: usize)
    requires { (length state.old ≡ 56) × (carried ≤ 24) }
    ensures { Laid (λ j. get_or state.old j 0 % 256) state.old 32 (32 + carried) state.new }
{
    for i in 0..carried {
        state[AT_HELD + i] %= 256;
    }
}

// Words that say nothing are 0.
fn clear(state: &mut [u64; WORDS], from: usize, to: usize)
    requires { (length state.old ≡ 56) × ((from ≤ to) × (to ≤ 56)) }
    ensures { Laid (λ j. 0) state.old from to state.new }
{
    state[from..to].fill(0);
}

// The words say so; the numbers and the bytes that are carried are there already.
pub(crate) fn store(state: &mut [u64; WORDS], profile: Profile, from: Marks)
    requires { (from.count ≤ 25) × (from.carried ≤ 24) }
    ensures { state.new ≡ words_of profile (state_in (stand_in from state.old)) }
{
    let next = tidied(from);
    let count = next.count;
    let carried = next.carried;
    let end = all_of(state);
    cut(state, carried);
    clear(state, AT_NUMBERS + count, AT_HELD);
    clear(state, AT_HELD + carried, end);
    state[AT_PROFILE] = number_of(profile);
    state[AT_STAGE] = next.stage;
    state[AT_LEFT] = next.left;
    state[AT_LAST] = next.last;
    state[AT_ABOVE] = next.above;
    state[AT_COUNT] = count as u64;
    state[AT_CARRIED] = carried as u64;
}
