// The whole reader and its companion, which hands back the entries' own bytes.
ghost use Rattle.std.specs.Prelude.{◌≡◌, ◌≤◌, [], length, IfOk, MatchResult};
ghost use Rattle.report.specs.Limits.{most_numbers};
ghost use Rattle.report.specs.Reader.{Stopped, reading_of, read_numbers, fault_behind, report_of, read_report, read_by, entries_by};

use crate::headers::{empty_header, header_of};
use crate::judging::{judge_field, last_of, wanted};
use crate::{MOST_NUMBERS, NumbersRead, Report};
use entries::{Profile, entries_good, record_size, records_in};
use wire::{Number, Refusal};

// Reads the header's numbers one by one; each is judged as soon as it is read. A number is taken apart by `let .. else`, as fields are.
pub(crate) fn read_numbers(profile: Profile, s: &[u8]) -> Result<NumbersRead, Refusal>
    ensures { (reading_of result ≡ read_numbers profile s.now) × IfOk result (λ read. (read.next ≤ length s.now) × (read.count ≤ most_numbers)) }
{
    let mut numbers = [0u64; MOST_NUMBERS];
    let mut at: usize = 0;
    for count in 0..MOST_NUMBERS {
        let whole = wanted(profile, &numbers[..count]);
        if whole <= count {
            return Ok(NumbersRead {
                next: at,
                count,
                numbers,
            });
        }
        let Ok(
            Number {
                value,
                next,
                shortest,
            },
        ) = wire::read_number(s, at)
        else {
            return Err(Refusal::Ends);
        };
        judge_field(profile, &numbers[..count], value, shortest)?;
        numbers[count] = value;
        at = next;
    }
    Ok(NumbersRead {
        next: at,
        count: MOST_NUMBERS,
        numbers,
    })
}

// What comes behind the numbers brings: too few bytes for the entries (2), a broken one (12), bytes behind them (13), or nothing.
// It is handed where they begin and how many there are, and no numbers, which would be copied.
fn fault_behind(profile: Profile, s: &[u8], at: usize, count: u64) -> Result<(), Refusal>
    requires { at ≤ length s.now }
    ensures { result ≡ fault_behind profile s.now at count }
{
    let entries = count as usize;
    let rest = s.len() - at;
    if records_in(profile, rest) < entries {
        return Err(Refusal::Ends);
    }
    let end = at + record_size(profile) * entries;
    if !entries_good(profile, &s[at..end]) {
        return Err(Refusal::BrokenEntry);
    }
    if end < s.len() {
        return Err(Refusal::BytesRemain);
    }
    Ok(())
}

// A refusal, with the empty header.
fn refused(refusal: Refusal) -> Report
    ensures { result ≡ report_of (Stopped refusal) }
{
    let header = empty_header();
    Report {
        refusal: refusal.number(),
        header,
    }
}

// Reads a whole report of a profile: 0 and its header, or the first fault and the empty header. Refusals are matched and not handed on:
// a Result with a header in it would be one copy of the header more.
fn read_as(profile: Profile, s: &[u8]) -> Report
    ensures { result ≡ read_report profile s.now }
{
    let read = match read_numbers(profile, s) {
        Ok(read) => read,
        Err(refusal) => return refused(refusal),
    };
    let numbers = &read.numbers[..read.count];
    if let Err(refusal) = fault_behind(profile, s, read.next, last_of(numbers)) {
        return refused(refusal);
    }
    let header = header_of(numbers);
    Report { refusal: 0, header }
}

// Reads a whole report of the profile asked for: 0 and its header, or the first fault, 18 before all others, and the empty header.
pub fn read_report(profile: u64, s: &[u8]) -> Report
    ensures { result ≡ read_by profile s.now }
{
    match Profile::try_from(profile) {
        Ok(known) => read_as(known, s),
        Err(refusal) => refused(refusal),
    }
}

// The entries of a report of the profile asked for, a part of the caller's own bytes, or why they are refused.
fn part_by(profile: u64, s: &[u8]) -> Result<&[u8], Refusal>
    ensures { MatchResult result (λ part. part.now ≡ entries_by profile s.now) (λ refusal. entries_by profile s.now ≡ []) }
{
    let known = Profile::try_from(profile)?;
    let read = read_numbers(known, s)?;
    let entries = last_of(&read.numbers[..read.count]);
    fault_behind(known, s, read.next, entries)?;
    Ok(&s[read.next..])
}

// The same, empty on a refusal.
pub fn entries_of(profile: u64, s: &[u8]) -> &[u8]
    ensures { result.now ≡ entries_by profile s.now }
{
    part_by(profile, s).unwrap_or(&s[..0])
}
