// Between a header and its list of numbers, and how the signed average is stored.
ghost use Rattle.std.specs.Prelude.{◌≡◌, [], ◌∷◌, ◌++◌, ◌+◌, ◌*◌, ◌≤◌, ◌<◌};
ghost use Rattle.report.specs.Layout.{fixed_numbers};
ghost use Rattle.report.specs.Limits.{metric_places};
ghost use Rattle.report.specs.Average.{stored_of, average_of};
ghost use Rattle.report.specs.Header.{each, metric_at, header_of, with_metrics, empty_header};

use crate::judging::{last_of, number_at};
use crate::layout::{
    AT_AVERAGE, AT_INTERVAL, AT_LATE, AT_LOST, AT_METRICS, AT_RECEIVED, AT_TIMESTAMP, AT_TOTAL,
    FIXED, TYPE, VALUE,
};
use crate::{Header, METRIC_PLACES, MOST_NUMBERS};

// The number that a signed average is stored as; outside its range it is above 2^62 - 1.
fn stored(n: i64) -> u64
    ensures { result ≡ stored_of n }
{
    if n < 0 {
        let m = -(n + 1);
        (m as u64) * 2 + 1
    } else {
        (n as u64) * 2
    }
}

// The signed average that a number stores.
pub fn average(v: u64) -> i64
    ensures { result ≡ average_of v }
{
    let half = (v / 2) as i64;
    if v % 2 == 0 { half } else { -half - 1 }
}

// The type or the value of metric i; 0 from the metric count on.
fn metric_at(numbers: &[u64], i: usize, part: usize) -> u64
    requires { (i < metric_places) × (part ≤ 1) }
    ensures { result ≡ metric_at numbers.now i (fixed_numbers + 2 * i + part) }
{
    if (i as u64) < number_at(numbers, AT_METRICS) {
        number_at(numbers, FIXED + 2 * i + part)
    } else {
        0
    }
}

// The types or the values of all metrics.
fn metrics_of(numbers: &[u64], part: usize) -> [u64; METRIC_PLACES]
    requires { part ≤ 1 }
    ensures { result ≡ each metric_places 0 (λ i. metric_at numbers.now i (fixed_numbers + 2 * i + part)) }
{
    std::array::from_fn(|i: usize| metric_at(numbers, i, part))
}

// The header that the numbers are.
pub(crate) fn header_of(numbers: &[u64]) -> Header
    ensures { result ≡ header_of numbers.now }
{
    let kinds = metrics_of(numbers, TYPE);
    let values = metrics_of(numbers, VALUE);
    let mean = average(number_at(numbers, AT_AVERAGE));
    Header {
        timestamp: number_at(numbers, AT_TIMESTAMP),
        interval: number_at(numbers, AT_INTERVAL),
        total: number_at(numbers, AT_TOTAL),
        received: number_at(numbers, AT_RECEIVED),
        late: number_at(numbers, AT_LATE),
        lost: number_at(numbers, AT_LOST),
        average: mean,
        metrics: number_at(numbers, AT_METRICS),
        kinds,
        values,
        entries: last_of(numbers),
    }
}

// All numbers 0, no metrics, no entries.
pub fn empty_header() -> Header
    ensures { result ≡ empty_header }
{
    Header::default()
}

// The header's numbers in their order, with all metrics that it has places for, and a place for the entry count. They are named one by one,
// since a loop over metrics would hide the order that goes over the wire.
pub(crate) fn numbers_of(header: Header) -> [u64; MOST_NUMBERS]
    ensures { result ≡ with_metrics header metric_places ++ (0 ∷ []) }
{
    let kinds = header.kinds;
    let values = header.values;
    let mean = header.average;
    [
        header.timestamp,
        header.interval,
        header.total,
        header.received,
        header.late,
        header.lost,
        stored(mean),
        header.metrics,
        kinds[0],
        values[0],
        kinds[1],
        values[1],
        kinds[2],
        values[2],
        kinds[3],
        values[3],
        kinds[4],
        values[4],
        kinds[5],
        values[5],
        kinds[6],
        values[6],
        kinds[7],
        values[7],
        0,
    ]
}
