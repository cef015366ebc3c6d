// For the archive of crate host: frames whose type the host's stack has read already, under their C names.
// They stand in an archive crate of their own: beside the whole readers both would be compiled slower.

#![tactic(auto)]

ghost use Rattle.std.specs.Prelude.{◌≡◌};
ghost use Rattle.frames.specs.Frequency.{read_frequency_as};
ghost use Rattle.frames.specs.Ack.{read_ack_as};
ghost use Rattle.host_codec.specs.Frames.{frequency_out, ack_out};

use host_codec::{AckOut, FrequencyOut, ack_out, frequency_out};

// Reads what follows the type of an ACK_FREQUENCY frame.
#[unsafe(no_mangle)]
pub extern "C" fn lumbixet_read_frequency_as(kind: u64, bytes: &[u8]) -> FrequencyOut
    ensures { result ≡ frequency_out (read_frequency_as kind bytes.now) }
{
    let answer = frames::read_frequency_as(kind, bytes);
    frequency_out(answer)
}

// Reads what follows the type of an ACK frame, and writes its ranges likewise.
#[unsafe(no_mangle)]
pub extern "C" fn lumbixet_read_ack_as(kind: u64, bytes: &[u8], ranges: &mut [u64]) -> AckOut
    ensures { (result ≡ ack_out (read_ack_as kind bytes.now ranges.old).answer)
        × (ranges.new ≡ (read_ack_as kind bytes.now ranges.old).slice) }
{
    let answer = frames::read_ack_as(kind, bytes, ranges);
    ack_out(answer)
}
