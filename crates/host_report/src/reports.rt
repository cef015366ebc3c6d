// The feedback report, read.
ghost use Rattle.std.specs.Prelude.{◌≡◌};
ghost use Rattle.report.specs.Reader.{read_by};
ghost use Rattle.host_report.specs.Reports.{entries_found};

use crate::EntriesOut;
use report::Report;

// Reads a whole report.
#[unsafe(no_mangle)]
pub extern "C" fn lumbixet_read_report(profile: u64, bytes: &[u8]) -> Report
    ensures { result ≡ read_by profile bytes.now }
{
    report::read_report(profile, bytes)
}

// Says where the entries of a report stand: they are its end.
#[unsafe(no_mangle)]
pub extern "C" fn lumbixet_find_entries(profile: u64, bytes: &[u8]) -> EntriesOut
    ensures { result ≡ entries_found profile bytes.now }
{
    let part = report::entries_of(profile, bytes);
    let start = bytes.len() - part.len();
    EntriesOut {
        start: start as u64,
        length: part.len() as u64,
    }
}
