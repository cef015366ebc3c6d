// The archive's calls for a report that arrives over several reads, as include/lumbixet_pieces.h declares them.
// A host lends the record, and it is updated there.

#![tactic(auto)]

ghost use Rattle.std.specs.Prelude.{◌≡◌, length};
ghost use Rattle.pieces.specs.Calls.{open_refusal, open_after, take_answer, take_after, take_bytes, end_answer, end_after};

use pieces::{Taken, WORDS};
use report::Report;

// Opens the reader for a report of a profile.
#[unsafe(no_mangle)]
pub extern "C" fn lumbixet_pieces_open(pieces: &mut [u64; WORDS], profile: u64) -> u64
    ensures { (result ≡ open_refusal profile) × (pieces.new ≡ open_after pieces.old profile) }
{
    pieces::open(pieces, profile)
}

// Takes the next part; good records that became whole go to the start of the buffer.
#[unsafe(no_mangle)]
pub extern "C" fn lumbixet_pieces_take(
    pieces: &mut [u64; WORDS],
    part: &[u8],
    buffer: &mut [u8],
) -> Taken
    ensures { (result ≡ take_answer pieces.old part.now (length buffer.old)) × ((pieces.new ≡ take_after pieces.old part.now (length buffer.old)) × (buffer.new ≡ take_bytes pieces.old part.now buffer.old)) }
{
    pieces::take(pieces, part, buffer)
}

// Says the end of the report.
#[unsafe(no_mangle)]
pub extern "C" fn lumbixet_pieces_end(pieces: &mut [u64; WORDS]) -> Report
    ensures { (result ≡ end_answer pieces.old) × (pieces.new ≡ end_after pieces.old) }
{
    pieces::end(pieces)
}
