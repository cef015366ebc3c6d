// Several numbers, written one after the other: all of them or none.
ghost use Rattle.std.specs.Prelude.{◌≡◌, true, ◌+◌, ◌≤◌, length};
ghost use Rattle.wire.specs.Bytes.{splice};
ghost use Rattle.wire.specs.Numbers.{encode_all, all_small, length_of, put_answer, put_bytes};

use crate::Refusal;
use crate::numbers::{put_number, shortest};

// How many bytes the numbers take together.
pub fn length_of(values: &[u64]) -> Result<usize, Refusal>
    ensures { result ≡ length_of values.now }
{
    let mut total: usize = 0;
    for &value in values {
        let fit = shortest(value)?;
        total += fit.len;
    }
    Ok(total)
}

// Writes the numbers one after the other from at on, where they all fit.
fn store_numbers(buf: &mut [u8], at: usize, values: &[u64])
    requires { (all_small values.now ≡ true) × (at + length (encode_all values.now) ≤ length buf.old) }
    ensures { buf.new ≡ splice buf.old at (encode_all values.now) }
{
    let mut place = at;
    for &value in values {
        if let Ok(next) = put_number(buf, place, value) {
            place = next;
        }
    }
}

// Writes the numbers one after the other from at on, all of them or none.
pub fn put_numbers(buf: &mut [u8], at: usize, values: &[u64]) -> Result<usize, Refusal>
    ensures { (result ≡ put_answer buf.old at values.now) × (buf.new ≡ put_bytes buf.old at values.now) }
{
    let total = length_of(values)?;
    if buf.len() < at || buf.len() - at < total {
        return Err(Refusal::NoRoom);
    }
    store_numbers(buf, at, values);
    Ok(at + total)
}
