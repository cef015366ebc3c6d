// ACK_FREQUENCY: what the sender asks of the receiver, read and written.
ghost use Rattle.std.specs.Prelude.{◌≡◌, [], ◌∷◌, Err};
ghost use Rattle.wire.specs.declared.Refusal.TheVariants.{OtherType};
ghost use Rattle.frames.specs.Types.{frequency_type, typed_as};
ghost use Rattle.wire.specs.Numbers.{put_answer, put_bytes};
ghost use Rattle.frames.specs.Frequency.{read_thresholds, read_frequency, read_frequency_as, frequency};

use crate::frame_type::read_type;
use crate::{Frequency, Kind};
use wire::{Number, Refusal};

// Its type.
const ACK_FREQUENCY: u64 = 0xaf;

// Reads what stands after a type: the four numbers, where it is this frame's.
fn read_behind(kind: u64, s: &[u8], at: usize) -> Result<Frequency, Refusal>
    ensures { result ≡ typed_as (frequency_type ∷ []) kind (Err OtherType) (read_thresholds s.now at) }
{
    if kind != ACK_FREQUENCY {
        return Err(Refusal::OtherType);
    }
    let Ok(
        Number {
            value: sequence,
            next: at1,
            ..
        },
    ) = wire::read_number(s, at)
    else {
        return Err(Refusal::Ends);
    };
    let Ok(
        Number {
            value: threshold,
            next: at2,
            ..
        },
    ) = wire::read_number(s, at1)
    else {
        return Err(Refusal::Ends);
    };
    let Ok(
        Number {
            value: delay,
            next: at3,
            ..
        },
    ) = wire::read_number(s, at2)
    else {
        return Err(Refusal::Ends);
    };
    let Ok(
        Number {
            value: reordering,
            next: used,
            ..
        },
    ) = wire::read_number(s, at3)
    else {
        return Err(Refusal::Ends);
    };
    Ok(Frequency {
        sequence,
        threshold,
        delay,
        reordering,
        used,
    })
}

// Reads the ACK_FREQUENCY frame that s starts with. Its delay is the receiver's to judge.
pub fn read_frequency(s: &[u8]) -> Result<Frequency, Refusal>
    ensures { result ≡ read_frequency s.now }
{
    let Kind { kind, next } = read_type(s)?;
    read_behind(kind, s, next)
}

// The same of an ACK_FREQUENCY frame whose type was read already: s starts with what comes after it.
pub fn read_frequency_as(kind: u64, s: &[u8]) -> Result<Frequency, Refusal>
    ensures { result ≡ read_frequency_as kind s.now }
{
    read_behind(kind, s, 0)
}

// Writes an ACK_FREQUENCY frame at the start of buf. Its four numbers come by themselves, as the C interface has them.
pub fn put_frequency(
    buf: &mut [u8],
    sequence: u64,
    threshold: u64,
    delay: u64,
    reordering: u64,
) -> Result<usize, Refusal>
    ensures { (result ≡ put_answer buf.old 0 (frequency sequence threshold delay reordering)) × (buf.new ≡ put_bytes buf.old 0 (frequency sequence threshold delay reordering)) }
{
    let numbers: [u64; 5] = [ACK_FREQUENCY, sequence, threshold, delay, reordering];
    wire::put_numbers(buf, 0, &numbers)
}
