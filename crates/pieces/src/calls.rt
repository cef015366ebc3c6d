// The three calls.
ghost use Rattle.std.specs.Prelude.{◌≡◌, List, ◌∷◌, ℕ, ◌≤◌, length};
ghost use Rattle.uncut.specs.State.{start, standing, whole_at, report_at, at_end};
ghost use Rattle.pieces.specs.Record.{stand_in, state_in, profile_of, body_of, words_of};
ghost use Rattle.pieces.specs.Calls.{refused_report, open_refusal, open_after, answer_of, refused_as, take_answer, take_after, take_bytes, end_answer, end_after};

use crate::fitness::consistent;
use crate::header::header_in;
use crate::rest::taken_in;
use crate::words::{come, loaded, store};
use crate::{ACCEPTED, AT_PROFILE, COUNTING, Marks, NUMBERS, RECORDS, REFUSED, Taken, WORDS};
use entries::{Profile, record_size};
use report::{MOST_NUMBERS, Report, empty_header};
use wire::Refusal;

// The profile that a word names; a word that names none is judged before.
fn profile_of(word: u64) -> Profile
    ensures { result ≡ profile_of word }
{
    Profile::try_from(word).unwrap_or(Profile::One)
}

// A refusal and the empty header, by the refusal's number, which a word of the C interface may hold.
fn refused(refusal: u64) -> Report
    ensures { result ≡ refused_report refusal }
{
    let header = empty_header();
    Report { refusal, header }
}

// The refusal that stands, 0 for none, as the answer to C has it.
fn standing_at(s: Marks) -> u64
    ensures { (w : List ℕ) → result ≡ standing (state_in (stand_in s w)) }
{
    match s.stage {
        COUNTING if s.left == 0 => Refusal::BrokenEntry.number(),
        REFUSED => s.left,
        _ => 0,
    }
}

// 1 where the header is whole and no refusal stands.
fn whole_at(s: Marks) -> u64
    ensures { (w : List ℕ) → result ≡ whole_at (state_in (stand_in s w)) }
{
    match s.stage {
        NUMBERS => 0,
        COUNTING if s.left == 0 => 0,
        REFUSED => 0,
        _ => 1,
    }
}

// The refusal that stands and the empty header, or 0 and the header once it is whole, read from the words that say so.
fn report_at(s: Marks, state: &[u64; WORDS]) -> Report
    requires { s.count ≤ 25 }
    ensures { (p : Profile) (w : List ℕ) → state.now ≡ words_of p (state_in (stand_in s w)) → result ≡ report_at (state_in (stand_in s w)) }
{
    let refusal = standing_at(s);
    if whole_at(s) == 0 {
        return refused(refusal);
    }
    let header = header_in(come(state, MOST_NUMBERS), s.count);
    Report { refusal, header }
}

// What a call answers that takes nothing.
fn nothing(refusal: u64) -> Taken
    ensures { result ≡ refused_as refusal }
{
    let header = empty_header();
    Taken {
        result: refusal,
        taken: 0,
        records: 0,
        whole: 0,
        header,
    }
}

// What a call answers, its header read from the words that say where the report stands; out of report_at it would be copied once more.
fn answer(s: Marks, state: &[u64; WORDS], taken: usize, records: usize) -> Taken
    requires { s.count ≤ 25 }
    ensures { (p : Profile) (w : List ℕ) → state.now ≡ words_of p (state_in (stand_in s w)) → result ≡ answer_of (state_in (stand_in s w)) taken records }
{
    let result = standing_at(s);
    let whole = whole_at(s);
    if whole == 0 {
        let none = empty_header();
        return Taken {
            result,
            taken,
            records,
            whole,
            header: none,
        };
    }
    let header = header_in(come(state, MOST_NUMBERS), s.count);
    Taken {
        result,
        taken,
        records,
        whole,
        header,
    }
}

// Where the end leads to.
fn ended(s: Marks) -> Marks
    ensures { ((w : List ℕ) → state_in (stand_in result w) ≡ at_end (state_in (stand_in s w))) × ((result.count ≡ s.count) × (result.carried ≡ s.carried)) }
{
    let mut next = s;
    let stage = s.stage;
    let left = s.left;
    next.stage = REFUSED;
    next.left = Refusal::Ends.number();
    match stage {
        RECORDS => {
            if left == 0 {
                next.stage = ACCEPTED;
            }
        }
        COUNTING => {
            if left == 0 {
                next.left = Refusal::BrokenEntry.number();
            }
        }
        NUMBERS => {}
        REFUSED => {
            next.left = left;
        }
        _ => {
            next.stage = ACCEPTED;
        }
    }
    next
}

// The words before the first byte of a report; 0 for C.
fn started(state: &mut [u64; WORDS], profile: u64) -> u64
    ensures { (result ≡ 0) × (state.new ≡ profile ∷ body_of start) }
{
    let mut words = [0u64; WORDS];
    words[AT_PROFILE] = profile;
    *state = words;
    0
}

// Opens a report of the profile. What stood in the words is not looked at.
pub fn open(state: &mut [u64; WORDS], profile: u64) -> u64
    ensures { (result ≡ open_refusal profile) × (state.new ≡ open_after state.old profile) }
{
    match Profile::try_from(profile) {
        Ok(_) => started(state, profile),
        Err(refusal) => refusal.number(),
    }
}

// Takes the next part of the report, and writes the records that it makes whole to the start of the buffer.
// Bytes that would need more room than the buffer has are not taken: the caller empties it and hands them in again.
pub fn take(state: &mut [u64; WORDS], part: &[u8], out: &mut [u8]) -> Taken
    ensures { (result ≡ take_answer state.old part.now (length out.old)) × ((state.new ≡ take_after state.old part.now (length out.old)) × (out.new ≡ take_bytes state.old part.now out.old)) }
{
    if !consistent(state) {
        return nothing(Refusal::Inconsistent.number());
    }
    let from = loaded(state);
    let profile = profile_of(state[AT_PROFILE]);
    if out.len() < record_size(profile) {
        return nothing(Refusal::NoRoom.number());
    }
    let stands = standing_at(from);
    if stands != 0 {
        return nothing(stands);
    }
    let moved = taken_in(profile, from, state, part, out);
    let next = moved.now;
    store(state, profile, next);
    answer(next, state, moved.taken, moved.records)
}

// The caller says the end: the report is accepted, or the refusal that it brings stands from then on.
pub fn end(state: &mut [u64; WORDS]) -> Report
    ensures { (result ≡ end_answer state.old) × (state.new ≡ end_after state.old) }
{
    if !consistent(state) {
        return refused(Refusal::Inconsistent.number());
    }
    let from = loaded(state);
    let stands = standing_at(from);
    if stands != 0 {
        return refused(stands);
    }
    let profile = profile_of(state[AT_PROFILE]);
    let next = ended(from);
    store(state, profile, next);
    report_at(next, state)
}
