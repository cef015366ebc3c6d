// For the archive of crate host: numbers and frames, read and written, under their C names.
// Each call is the one of crate host_codec that has its name, and meets the same contract: that crate is a library, which exports nothing to C.

#![tactic(auto)]

ghost use Rattle.std.specs.Prelude.{◌≡◌, [], ◌∷◌};
ghost use Rattle.wire.specs.Numbers.{read_number, put_answer, put_bytes};
ghost use Rattle.frames.specs.Frequency.{read_frequency, frequency};
ghost use Rattle.frames.specs.Immediate.{read_immediate, immediate};
ghost use Rattle.frames.specs.Ack.{read_ack};
ghost use Rattle.host_codec.specs.Numbers.{number_out, put_out};
ghost use Rattle.host_codec.specs.Frames.{frequency_out, immediate_out, ack_out};

use host_codec::{AckOut, FrequencyOut, ImmediateOut, NumberOut, PutOut};

// Reads the number that starts at a place.
#[unsafe(no_mangle)]
pub extern "C" fn lumbixet_read_number(bytes: &[u8], at: usize) -> NumberOut
    ensures { result ≡ number_out (read_number bytes.now at) }
{
    host_codec::lumbixet_read_number(bytes, at)
}

// Writes a number at a place in its shortest form.
#[unsafe(no_mangle)]
pub extern "C" fn lumbixet_put_number(buffer: &mut [u8], at: usize, value: u64) -> PutOut
    ensures { (result ≡ put_out (put_answer buffer.old at (value ∷ []))) × (buffer.new ≡ put_bytes buffer.old at (value ∷ [])) }
{
    host_codec::lumbixet_put_number(buffer, at, value)
}

// Reads an ACK_FREQUENCY frame.
#[unsafe(no_mangle)]
pub extern "C" fn lumbixet_read_frequency(bytes: &[u8]) -> FrequencyOut
    ensures { result ≡ frequency_out (read_frequency bytes.now) }
{
    host_codec::lumbixet_read_frequency(bytes)
}

// Reads an IMMEDIATE_ACK frame.
#[unsafe(no_mangle)]
pub extern "C" fn lumbixet_read_immediate(bytes: &[u8]) -> ImmediateOut
    ensures { result ≡ immediate_out (read_immediate bytes.now) }
{
    host_codec::lumbixet_read_immediate(bytes)
}

// Reads an ACK frame and writes smallest and largest of each range to the lent slice.
#[unsafe(no_mangle)]
pub extern "C" fn lumbixet_read_ack(bytes: &[u8], ranges: &mut [u64]) -> AckOut
    ensures { (result ≡ ack_out (read_ack bytes.now ranges.old).answer) × (ranges.new ≡ (read_ack bytes.now ranges.old).slice) }
{
    host_codec::lumbixet_read_ack(bytes, ranges)
}

// Writes an ACK_FREQUENCY frame at the start of the buffer.
#[unsafe(no_mangle)]
pub extern "C" fn lumbixet_put_frequency(
    buffer: &mut [u8],
    sequence: u64,
    threshold: u64,
    delay: u64,
    reordering: u64,
) -> PutOut
    ensures { (result ≡ put_out (put_answer buffer.old 0 (frequency sequence threshold delay reordering))) × (buffer.new ≡ put_bytes buffer.old 0 (frequency sequence threshold delay reordering)) }
{
    host_codec::lumbixet_put_frequency(buffer, sequence, threshold, delay, reordering)
}

// Writes an IMMEDIATE_ACK frame at the start of the buffer.
#[unsafe(no_mangle)]
pub extern "C" fn lumbixet_put_immediate(buffer: &mut [u8]) -> PutOut
    ensures { (result ≡ put_out (put_answer buffer.old 0 immediate)) × (buffer.new ≡ put_bytes buffer.old 0 immediate) }
{
    host_codec::lumbixet_put_immediate(buffer)
}
