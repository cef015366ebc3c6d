// The header, read where its numbers stand.
ghost use Rattle.std.specs.Prelude.{◌≡◌, List, ℕ, ◌≤◌, length};
ghost use Rattle.report.specs.Header.{header_of};
ghost use Rattle.report.specs.Limits.{most_numbers};
ghost use Rattle.pieces.specs.Record.{padded};

use report::layout::{
    AT_AVERAGE, AT_INTERVAL, AT_LATE, AT_LOST, AT_METRICS, AT_RECEIVED, AT_TIMESTAMP, AT_TOTAL,
    FIXED,
};
use report::{Header, METRIC_PLACES, average};

// The header whose numbers, so many of them, stand at the first of all places; every place behind them is 0, and so none is tested.
pub(crate) fn header_in(places: &[u64], count: usize) -> Header
    requires { (length places.now ≡ most_numbers) × (count ≤ most_numbers) }
    ensures { (ns : List ℕ) → length ns ≡ count → places.now ≡ padded most_numbers ns → result ≡ header_of ns }
{
    let metrics = places[AT_METRICS];
    let shown = (metrics as usize).min(METRIC_PLACES);
    let mut kinds = [0u64; METRIC_PLACES];
    let mut values = [0u64; METRIC_PLACES];
    for i in 0..shown {
        kinds[i] = places[FIXED + 2 * i];
        values[i] = places[FIXED + 2 * i + 1];
    }
    // Of no numbers the first place, which is 0 then.
    let last = count.saturating_sub(1);
    let mean = average(places[AT_AVERAGE]);
    Header {
        timestamp: places[AT_TIMESTAMP],
        interval: places[AT_INTERVAL],
        total: places[AT_TOTAL],
        received: places[AT_RECEIVED],
        late: places[AT_LATE],
        lost: places[AT_LOST],
        average: mean,
        metrics,
        kinds,
        values,
        entries: places[last],
    }
}
