// The tracker of object statuses. A host lends its record, which is large, and it is updated there.
ghost use Rattle.std.specs.Prelude.{◌≡◌, length};
ghost use Rattle.tracker.specs.Calls.{open_refusal, open_after, arrived_refusal, arrived_after, ended_refusal, ended_after};
ghost use Rattle.tracker.specs.Report.{report_answer, report_bytes};

use report::Report;
use tracker::WORDS;
use wire::refusal_number;

// Opens a tracker for 256 objects.
#[unsafe(no_mangle)]
pub extern "C" fn lumbixet_tracker_open(
    tracker: &mut [u64; WORDS],
    first: u64,
    interval: u64,
) -> u64
    ensures { (result ≡ open_refusal first interval) × (tracker.new ≡ open_after tracker.old first interval) }
{
    let answer = tracker::open(tracker, first, interval);
    refusal_number(&answer)
}

// An object arrives; its deadline is an end, one past it, and 0 for none.
#[unsafe(no_mangle)]
pub extern "C" fn lumbixet_tracker_arrived(
    tracker: &mut [u64; WORDS],
    object: u64,
    time: u64,
    deadline: u64,
) -> u64
    ensures { (result ≡ arrived_refusal tracker.old object time deadline) × (tracker.new ≡ arrived_after tracker.old object time deadline) }
{
    let answer = tracker::arrived(tracker, object, time, deadline);
    refusal_number(&answer)
}

// An object ended early.
#[unsafe(no_mangle)]
pub extern "C" fn lumbixet_tracker_ended_early(
    tracker: &mut [u64; WORDS],
    object: u64,
    time: u64,
) -> u64
    ensures { (result ≡ ended_refusal tracker.old object time) × (tracker.new ≡ ended_after tracker.old object time) }
{
    let answer = tracker::ended_early(tracker, object, time);
    refusal_number(&answer)
}

// Makes the summary and the entries for a time and a report interval.
#[unsafe(no_mangle)]
pub extern "C" fn lumbixet_tracker_report(
    tracker: &[u64; WORDS],
    time: u64,
    interval: u64,
    entries: &mut [u8],
) -> Report
    ensures { (result ≡ report_answer tracker.now time interval (length entries.old)) × (entries.new ≡ report_bytes tracker.now time interval entries.old) }
{
    tracker::report(tracker, time, interval, entries)
}
