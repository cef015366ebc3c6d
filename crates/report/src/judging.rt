// What each number of a header brings: the step that reader and writer both go by, and 15, which only a reader can give.
ghost use Rattle.std.specs.Prelude.{◌≡◌, ◌+◌, ◌≤◌, min, eqb, length, get_or};
ghost use Rattle.report.specs.Layout.{fixed_numbers};
ghost use Rattle.report.specs.Limits.{metric_places};
ghost use Rattle.entries.specs.Profiles.{most_metrics, type_allowed};
ghost use Rattle.entries.specs.declared.Profile.TheVariants.{One};
ghost use Rattle.report.specs.Header.{judge, judge_field, judge_later, first_fault, wanted_of, count_of};

use crate::layout::{AT_LATE, AT_LOST, AT_METRICS, AT_RECEIVED, AT_TOTAL, FIXED};
use entries::{MOST_ENTRIES, Profile};
use wire::Refusal;

// At most so many metrics in a report of the profile.
pub fn most_metrics(profile: Profile) -> usize
    ensures { (result ≡ most_metrics profile) × (result ≤ metric_places) }
{
    match profile {
        Profile::One => 4,
        Profile::Two => 8,
    }
}

// Whether a report of the profile may have a metric of the type: in profile 2 every even one.
fn type_allowed(profile: Profile, kind: u64) -> bool
    ensures { result ≡ type_allowed profile kind }
{
    match profile {
        Profile::One => known_type(kind),
        Profile::Two => kind % 2 == 0,
    }
}

// "types .. from 0x02, 0x04, 0x10, 0x12"
fn known_type(kind: u64) -> bool
    ensures { result ≡ type_allowed One kind }
{
    matches!(kind, 0x02 | 0x04 | 0x10 | 0x12)
}

// Whether total is the sum of the three parts, with no sum that could wrap. A chain of checked differences says it no plainer.
fn adds_up(total: u64, received: u64, late: u64, lost: u64) -> bool
    ensures { result ≡ eqb total (received + late + lost) }
{
    if total < received {
        return false;
    }
    let rest = total - received;
    if rest < late {
        return false;
    }
    rest - late == lost
}

// What a field brings: 15 for a longer form, then what its number does. It is one step of the reader.
pub fn judge_field(profile: Profile, numbers: &[u64], v: u64, shortest: bool) -> Result<(), Refusal>
    ensures { result ≡ judge_field profile numbers.now v shortest }
{
    if !shortest {
        return Err(Refusal::LongerForm);
    }
    judge_next(profile, numbers, v)
}

// What v brings where it comes after the numbers so far: one step of the writer, and the reader's for a shortest form.
fn judge_next(profile: Profile, numbers: &[u64], v: u64) -> Result<(), Refusal>
    ensures { result ≡ judge profile numbers.now v }
{
    let n = numbers.len();
    if n == AT_LOST {
        if adds_up(numbers[AT_TOTAL], numbers[AT_RECEIVED], numbers[AT_LATE], v) {
            return Ok(());
        }
        return Err(Refusal::OtherTotal);
    }
    if n == AT_METRICS {
        if v <= most_metrics(profile) as u64 {
            return Ok(());
        }
        return Err(Refusal::BrokenCount);
    }
    if n < FIXED {
        return Ok(());
    }
    if n % 2 == 1 {
        return Ok(());
    }
    judge_later(profile, numbers, v)
}

// The same from the ninth number on, where a type or the entry count comes.
fn judge_later(profile: Profile, numbers: &[u64], v: u64) -> Result<(), Refusal>
    requires { fixed_numbers ≤ length numbers.now }
    ensures { result ≡ judge_later profile numbers.now v }
{
    let n = numbers.len();
    let metric = ((n - FIXED) / 2) as u64;
    let metrics = numbers[AT_METRICS];
    if metric == metrics {
        if v <= MOST_ENTRIES as u64 {
            return Ok(());
        }
        return Err(Refusal::BrokenCount);
    }
    if !type_allowed(profile, v) {
        return Err(Refusal::BrokenCount);
    }
    if n == FIXED {
        return Ok(());
    }
    if numbers[n - 2] < v {
        Ok(())
    } else {
        Err(Refusal::BrokenCount)
    }
}

// How many metrics are looked at: those of the count, up to the limit.
pub(crate) fn looked_at(profile: Profile, metrics: u64) -> usize
    ensures { (result ≡ min metrics (most_metrics profile)) × (result ≤ metric_places) }
{
    metrics.min(most_metrics(profile) as u64) as usize
}

// The number at i, 0 past the last.
pub fn number_at(numbers: &[u64], i: usize) -> u64
    ensures { result ≡ get_or numbers.now i 0 }
{
    numbers.get(i).copied().unwrap_or(0)
}

// How many numbers the header has, as far as the numbers so far tell.
pub fn wanted(profile: Profile, numbers: &[u64]) -> usize
    ensures { result ≡ wanted_of profile numbers.now }
{
    let metrics = number_at(numbers, AT_METRICS);
    FIXED + 2 * looked_at(profile, metrics) + 1
}

// The entry count, the last of the numbers.
pub fn last_of(numbers: &[u64]) -> u64
    ensures { result ≡ count_of numbers.now }
{
    numbers.last().copied().unwrap_or(0)
}

// The first refusal that the numbers bring, each judged after those before it. Only the sum, the metric count and each type
// or count behind can bring one, so no other number is looked at.
pub fn first_fault(profile: Profile, numbers: &[u64]) -> Result<(), Refusal>
    ensures { result ≡ first_fault profile numbers.now }
{
    if numbers.len() <= AT_LOST {
        return Ok(());
    }
    if !adds_up(
        numbers[AT_TOTAL],
        numbers[AT_RECEIVED],
        numbers[AT_LATE],
        numbers[AT_LOST],
    ) {
        return Err(Refusal::OtherTotal);
    }
    let most = most_metrics(profile) as u64;
    if most < number_at(numbers, AT_METRICS) {
        return Err(Refusal::BrokenCount);
    }
    for i in (FIXED..numbers.len()).step_by(2) {
        judge_later(profile, &numbers[..i], numbers[i])?;
    }
    Ok(())
}
