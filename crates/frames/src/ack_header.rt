// ACK: its type and the numbers that stand before its ranges.
ghost use Rattle.std.specs.Prelude.{◌≡◌, true, false, Err};
ghost use Rattle.wire.specs.declared.Refusal.TheVariants.{OtherType};
ghost use Rattle.frames.specs.Types.{ack_types, is_ack, typed_as};
ghost use Rattle.frames.specs.Ack.{read_header_at, read_header};

use crate::frame_type::read_type;
use crate::{Header, Kind};
use wire::{Number, Refusal};

// Its type, and its type with counts.
const ACK: u64 = 0x02;

const ACK_COUNTS: u64 = 0x03;

fn is_ack(kind: u64) -> bool
    ensures { result ≡ is_ack kind }
{
    matches!(kind, ACK | ACK_COUNTS)
}

// Reads what stands between a type and the ranges, from a place on: largest, delay and range count, where it is one of this frame's.
pub(crate) fn read_header_at(kind: u64, s: &[u8], at0: usize) -> Result<Header, Refusal>
    ensures { result ≡ typed_as ack_types kind (Err OtherType) (read_header_at kind s.now at0) }
{
    if !is_ack(kind) {
        return Err(Refusal::OtherType);
    }
    let Ok(
        Number {
            value: largest,
            next: at1,
            ..
        },
    ) = wire::read_number(s, at0)
    else {
        return Err(Refusal::Ends);
    };
    let Ok(
        Number {
            value: delay,
            next: at2,
            ..
        },
    ) = wire::read_number(s, at1)
    else {
        return Err(Refusal::Ends);
    };
    let Ok(
        Number {
            value: count,
            next: at,
            ..
        },
    ) = wire::read_number(s, at2)
    else {
        return Err(Refusal::Ends);
    };
    Ok(Header {
        largest,
        delay,
        count,
        at,
        counted: kind == ACK_COUNTS,
    })
}

impl Header {
    // Whether a frame's first range is all that comes after its numbers.
    pub(crate) fn is_alone(self) -> bool
        ensures { result ≡ true → (self.count ≡ 0) × (self.counted ≡ false) }
    {
        self.count == 0 && !self.counted
    }
}

// Reads the type and the numbers that stand before the ranges. It ends in one answer, so that the compiler takes what comes after it in line.
pub(crate) fn read_header(s: &[u8]) -> Result<Header, Refusal>
    ensures { result ≡ read_header s.now }
{
    let Kind { kind, next } = read_type(s)?;
    read_header_at(kind, s, next)
}
