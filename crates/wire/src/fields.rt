// Fields of a given length, high byte first, read and written.
ghost use Rattle.std.specs.Prelude.{◌≡◌, ◌≤◌, length};
ghost use Rattle.wire.specs.Bytes.{be};
ghost use Rattle.wire.specs.Fields.{read_fixed, fixed, placed, written};

use crate::{Fixed, Refusal};

// The number that the bytes of s are, high byte first.
fn join(s: &[u8]) -> u64
    requires { length s.now ≤ 8 }
    ensures { result ≡ be 0 s.now }
{
    let mut n: u64 = 0;
    for &byte in s {
        n = n * 256 + u64::from(byte);
    }
    n
}

// Fills buf with the lowest bytes of v, high byte first.
fn fill(buf: &mut [u8], v: u64)
    ensures { buf.new ≡ fixed (length buf.old) v }
{
    let mut rest = v;
    for i in (0..buf.len()).rev() {
        buf[i] = (rest % 256) as u8;
        rest /= 256;
    }
}

// The field of len bytes at at, high byte first.
pub(crate) fn read_fixed(s: &[u8], at: usize, len: usize) -> Result<Fixed, Refusal>
    requires { len ≤ 8 }
    ensures { result ≡ read_fixed len s.now at }
{
    if s.len() < at || s.len() - at < len {
        return Err(Refusal::Ends);
    }
    let end = at + len;
    let value = join(&s[at..end]);
    Ok(Fixed { value, next: end })
}

// Writes the lowest len bytes of v at at.
pub(crate) fn put_fixed(buf: &mut [u8], at: usize, len: usize, v: u64) -> Result<usize, Refusal>
    ensures { (result ≡ placed buf.old at (fixed len v)) × (buf.new ≡ written buf.old at (fixed len v)) }
{
    if buf.len() < at || buf.len() - at < len {
        return Err(Refusal::NoRoom);
    }
    let end = at + len;
    fill(&mut buf[at..end], v);
    Ok(end)
}

// The four calls on fields of four and eight bytes stand beside each other: each is one line, and a const parameter in place of them
// would ask `len ≤ 8` of callers.

// The fixed field of four bytes at at.
pub fn read_fixed4(s: &[u8], at: usize) -> Result<Fixed, Refusal>
    ensures { result ≡ read_fixed 4 s.now at }
{
    read_fixed(s, at, 4)
}

// The fixed field of eight bytes at at.
pub fn read_fixed8(s: &[u8], at: usize) -> Result<Fixed, Refusal>
    ensures { result ≡ read_fixed 8 s.now at }
{
    read_fixed(s, at, 8)
}

// Writes v as a fixed field of four bytes at at.
pub fn put_fixed4(buf: &mut [u8], at: usize, v: u32) -> Result<usize, Refusal>
    ensures { (result ≡ placed buf.old at (fixed 4 v)) × (buf.new ≡ written buf.old at (fixed 4 v)) }
{
    put_fixed(buf, at, 4, u64::from(v))
}

// Writes v as a fixed field of eight bytes at at.
pub fn put_fixed8(buf: &mut [u8], at: usize, v: u64) -> Result<usize, Refusal>
    ensures { (result ≡ placed buf.old at (fixed 8 v)) × (buf.new ≡ written buf.old at (fixed 8 v)) }
{
    put_fixed(buf, at, 8, v)
}
