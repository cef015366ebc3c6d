// The summary and the entries for a given time and report interval.
ghost use Rattle.std.specs.Prelude.{◌≡◌, ◌<◌, ◌+◌, length};
ghost use Rattle.wire.specs.Refusals.{number_of};
ghost use Rattle.report.specs.Header.{empty_header};
ghost use Rattle.tracker.specs.Report.{header_of, report_answer, report_bytes};

use crate::average::{in_range, mean};
use crate::counting::{counts_of, loss_end, spread_of};
use crate::record::{both_obey, consistent};
use crate::records::put_entries;
use crate::{AT_INTERVAL, Counts, WORDS};
use entries::RECORD;
use report::{Header, Report};
use wire::Refusal;

// A refusal has the empty header.
fn refused(refusal: Refusal) -> Report
    ensures { result ≡ record { refusal = number_of refusal; header = empty_header } }
{
    Report {
        refusal: refusal.number(),
        header: report::empty_header(),
    }
}

// The header of a summary: lost are those not received and those received in part.
fn header(time: u64, interval: u64, counts: Counts, average: i64) -> Header
    requires { (counts.received < 1000) × ((counts.late < 1000) × ((counts.missing < 1000) × (counts.partial < 1000))) }
    ensures { result ≡ header_of time interval (counts.received + counts.late + (counts.missing + counts.partial)) counts.received counts.late (counts.missing + counts.partial) average }
{
    let none = [0u64; 8];
    let lost = counts.missing + counts.partial;
    let total = counts.received + counts.late + lost;
    Header {
        timestamp: time,
        interval,
        total,
        received: counts.received,
        late: counts.late,
        lost,
        average,
        metrics: 0,
        kinds: none,
        values: none,
        entries: total,
    }
}

// It answers a Report, which is the C struct of lumbixet_tracker_report and has the refusal as its number.
// Makes the entries and the summary for a time and a report interval; nothing is written on a refusal.
pub fn report(tracker: &[u64; WORDS], time: u64, interval: u64, entries: &mut [u8]) -> Report
    ensures { (result ≡ report_answer tracker.now time interval (length entries.old)) × (entries.new ≡ report_bytes tracker.now time interval entries.old) }
{
    if !consistent(tracker) {
        return refused(Refusal::Inconsistent);
    }
    if !both_obey(time, interval) {
        return refused(Refusal::TooLarge);
    }
    let spread = spread_of(tracker);
    let end = loss_end(tracker, time, spread.top);
    let counts = counts_of(tracker, end);
    let gaps = (counts.received + counts.late).saturating_sub(1);
    let average = mean(
        spread.latest.saturating_sub(spread.earliest),
        gaps,
        tracker[AT_INTERVAL],
    );
    if !in_range(average) {
        return refused(Refusal::TooLarge);
    }
    let header = header(time, interval, counts, average);
    if entries.len() / RECORD < header.total as usize {
        return refused(Refusal::NoRoom);
    }
    put_entries(entries, tracker, time, end);
    Report { refusal: 0, header }
}
