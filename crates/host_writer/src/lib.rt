// For the archive of crate host: the writer of reports under its C name. It is apart from the readers, so that what judges an entry
// goes in line in either.
// Where a lower crate answers a Result, a host gets the paper's number, 0 for accepted, and the values, and 0 for what a refusal has not.

#![tactic(auto)]

ghost use Rattle.std.specs.Prelude.{◌≡◌, length};
ghost use Rattle.report.specs.Writer.{answer_by, bytes_by};
ghost use Rattle.host_writer.specs.Writer.{written_out};

use report::{Header, Written};
use wire::Refusal;

// What the writer of reports answers: the length of the report, and how many records were kept.
#[repr(C)]
#[derive(Clone, Copy)]
pub struct WrittenOut {
    pub result: u64,
    pub next: u64,
    pub kept: u64,
}

// The length of the report and how many records it keeps, or the refusal; a From that is used once is no plainer.
fn written_out(answer: Result<Written, Refusal>) -> WrittenOut
    ensures { result ≡ written_out answer }
{
    match answer {
        Ok(Written { next, kept }) => WrittenOut {
            result: 0,
            next: next as u64,
            kept: kept as u64,
        },
        Err(refusal) => WrittenOut {
            result: refusal.number(),
            next: 0,
            kept: 0,
        },
    }
}

// Writes a report of at most so many records at the start of the buffer.
#[unsafe(no_mangle)]
pub extern "C" fn lumbixet_write_report(
    profile: u64,
    buffer: &mut [u8],
    header: Header,
    records: &[u8],
    maximum: u64,
) -> WrittenOut
    ensures { (result ≡ written_out (answer_by profile header records.now maximum (length buffer.old))) × (buffer.new ≡ bytes_by profile header records.now maximum buffer.old) }
{
    let answer = report::write_report(profile, buffer, header, records, maximum);
    written_out(answer)
}
