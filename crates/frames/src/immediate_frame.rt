// IMMEDIATE_ACK: a frame of its type alone, read and written.
ghost use Rattle.std.specs.Prelude.{◌≡◌};
ghost use Rattle.wire.specs.Numbers.{put_answer, put_bytes};
ghost use Rattle.frames.specs.Immediate.{read_immediate, immediate};

use crate::Kind;
use crate::frame_type::read_type;
use wire::Refusal;

// Its type.
const IMMEDIATE_ACK: u64 = 0x1f;

// Reads the IMMEDIATE_ACK frame that s starts with, and answers the length used.
pub fn read_immediate(s: &[u8]) -> Result<usize, Refusal>
    ensures { result ≡ read_immediate s.now }
{
    let Kind { kind, next } = read_type(s)?;
    if kind != IMMEDIATE_ACK {
        return Err(Refusal::OtherType);
    }
    Ok(next)
}

// Writes an IMMEDIATE_ACK frame at the start of buf.
pub fn put_immediate(buf: &mut [u8]) -> Result<usize, Refusal>
    ensures { (result ≡ put_answer buf.old 0 immediate) × (buf.new ≡ put_bytes buf.old 0 immediate) }
{
    wire::put_number(buf, 0, IMMEDIATE_ACK)
}
