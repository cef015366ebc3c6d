// The week's totals of document 02, No. 13. A host keeps the record and hands it in with each call.
ghost use Rattle.std.specs.Prelude.{◌≡◌};
ghost use Rattle.totals.specs.Files.{start, reported, taken};
ghost use Rattle.page.specs.Page.{page_placed, page_written};
ghost use Rattle.host_totals.specs.Week.{page_out};

use crate::PageOut;
use totals::{Added, Standing, Taken};
use wire::Refusal;

// The length of the page, or the refusal.
fn page_out(answer: Result<usize, Refusal>) -> PageOut
    ensures { result ≡ page_out answer }
{
    match answer {
        Ok(next) => PageOut {
            result: 0,
            length: next as u64,
        },
        Err(refusal) => PageOut {
            result: refusal.number(),
            length: 0,
        },
    }
}

// The totals before the first report.
#[unsafe(no_mangle)]
pub extern "C" fn lumbixet_totals_open() -> Standing
    ensures { result ≡ start }
{
    Standing::start()
}

// One report more, handed over by itself.
#[unsafe(no_mangle)]
pub extern "C" fn lumbixet_totals_add(totals: Standing, report: &[u8]) -> Added
    ensures { result ≡ reported totals report.now }
{
    totals.add(report)
}

// All reports that are whole at the start of a piece of a file.
#[unsafe(no_mangle)]
pub extern "C" fn lumbixet_totals_piece(totals: Standing, piece: &[u8]) -> Taken
    ensures { result ≡ taken totals piece.now }
{
    totals.piece(piece)
}

// Writes the page at the start of the buffer; left is how many bytes of the file are left.
#[unsafe(no_mangle)]
pub extern "C" fn lumbixet_totals_page(totals: Standing, left: usize, buffer: &mut [u8]) -> PageOut
    ensures { (result ≡ page_out (page_placed totals left buffer.old)) × (buffer.new ≡ page_written totals left buffer.old) }
{
    let answer = page::put_page(buffer, totals, left);
    page_out(answer)
}
