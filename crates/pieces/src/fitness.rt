// Which records are served.
ghost use Rattle.std.specs.Prelude.{◌≡◌, true, ◌&&◌};
ghost use Rattle.wire.specs.Numbers.{all_small};
ghost use Rattle.report.specs.Header.{count_of};
ghost use Rattle.pieces.specs.Record.{stand_in, stand_at};
ghost use Rattle.pieces.specs.Fitness.{numbers_fit, field_fit, is_whole, largest_group, place_fit, rows_fit, counted_fit, can_stand, stand_fit, consistent};

use crate::words::{come, held_in, loaded};
use crate::{ACCEPTED, AT_PROFILE, CARRIED, COUNTING, Marks, NUMBERS, RECORDS, REFUSED, WORDS};
use entries::{Profile, record_size};
use report::{MOST_NUMBERS, first_fault, last_of, wanted};
use wire::LARGEST;

// Whether the numbers obey 5.
fn all_small(numbers: &[u64]) -> bool
    ensures { result ≡ all_small numbers.now }
{
    numbers.iter().all(|v| *v <= LARGEST)
}

// Whether the numbers obey 5 and bring no fault.
fn numbers_fit(profile: Profile, numbers: &[u64]) -> bool
    ensures { result ≡ numbers_fit profile numbers.now }
{
    all_small(numbers) && first_fault(profile, numbers).is_ok()
}

// Whether a further number is wanted and the bytes are no whole field.
fn field_fit(profile: Profile, numbers: &[u64], held: &[u8]) -> bool
    ensures { result ≡ field_fit profile numbers.now held.now }
{
    numbers.len() < wanted(profile, numbers) && wire::read_number(held, 0).is_err()
}

// Whether the numbers are all that their header has.
fn is_whole(profile: Profile, numbers: &[u64]) -> bool
    ensures { result ≡ is_whole profile numbers.now }
{
    numbers.len() == wanted(profile, numbers)
}

// The largest group that a record can have.
fn largest_group(profile: Profile) -> u64
    ensures { result ≡ largest_group profile }
{
    match profile {
        Profile::One => 0,
        Profile::Two => LARGEST,
    }
}

// Whether the place of the record before is one. There is none before the first record, while as many are left as are counted.
// The tests stand one by one, as one expression is no plainer.
fn place_fit(profile: Profile, count: u64, left: u64, last: u64, above: u64) -> bool
    ensures { result ≡ place_fit profile count left last above }
{
    if left == count {
        if last != 0 {
            return false;
        }
        return above == 0;
    }
    if largest_group(profile) < last {
        return false;
    }
    if above == 0 {
        return false;
    }
    above <= LARGEST + 1
}

// Whether the header is whole and what is known of the records agrees with it.
fn rows_fit(
    profile: Profile,
    numbers: &[u64],
    left: u64,
    last: u64,
    above: u64,
    carried: usize,
) -> bool
    ensures { result ≡ is_whole profile numbers.now && rows_fit profile (count_of numbers.now) left last above carried }
{
    if !is_whole(profile, numbers) {
        return false;
    }
    let count = last_of(numbers);
    if count < left {
        return false;
    }
    if !place_fit(profile, count, left, last, above) {
        return false;
    }
    if left == 0 {
        return carried == 0;
    }
    carried < record_size(profile)
}

// Whether the header is whole and so many bytes can be left behind a bad one of its records.
fn counted_fit(profile: Profile, numbers: &[u64], left: u64) -> bool
    requires { numbers_fit profile numbers.now ≡ true }
    ensures { result ≡ is_whole profile numbers.now && counted_fit profile (count_of numbers.now) left }
{
    if !is_whole(profile, numbers) {
        return false;
    }
    let count = last_of(numbers);
    if count == 0 {
        return false;
    }
    left <= (record_size(profile) as u64) * (count - 1)
}

// Whether a report can bring the refusal.
fn can_stand(refusal: u64) -> bool
    ensures { result ≡ can_stand refusal }
{
    matches!(refusal, 2 | 10 | 11 | 12 | 13 | 15)
}

// Whether the marks, with the numbers and bytes that the words have, fit the profile.
fn stand_fit(profile: Profile, s: Marks, state: &[u64; WORDS]) -> bool
    ensures { result ≡ stand_fit profile (stand_in s state.now) }
{
    let count = s.count;
    let carried = s.carried;
    if MOST_NUMBERS < count {
        return false;
    }
    if CARRIED < carried {
        return false;
    }
    let stage = s.stage;
    if stage == REFUSED {
        return can_stand(s.left);
    }
    if !numbers_fit(profile, come(state, count)) {
        return false;
    }
    match stage {
        NUMBERS => {
            let held = held_in(state, carried);
            field_fit(profile, come(state, count), &held[..carried])
        }
        RECORDS => rows_fit(
            profile,
            come(state, count),
            s.left,
            s.last,
            s.above,
            carried,
        ),
        COUNTING => counted_fit(profile, come(state, count), s.left),
        ACCEPTED => is_whole(profile, come(state, count)),
        _ => false,
    }
}

// Whether the words fit the profile. They are handed on alone, and loaded where they are judged: a caller that hands its own marks over stores
// them for that.
fn words_fit(profile: Profile, state: &[u64; WORDS]) -> bool
    ensures { result ≡ stand_fit profile (stand_at state.now) }
{
    let s = loaded(state);
    stand_fit(profile, s, state)
}

// Whether the record is consistent.
pub(crate) fn consistent(state: &[u64; WORDS]) -> bool
    ensures { result ≡ consistent state.now }
{
    let profile = state[AT_PROFILE];
    match Profile::try_from(profile) {
        Ok(known) => words_fit(known, state),
        Err(_) => false,
    }
}
