// A line of the output: three numbers in decimal, a blank between them and a line end behind.
ghost use Rattle.std.specs.Prelude.{◌≡◌, [], ◌∷◌, ◌++◌, ◌+◌, ◌≤◌, length};
ghost use Rattle.wire.specs.Bytes.{splice};
ghost use Rattle.wire.specs.Fields.{placed, written};
ghost use Rattle.decimal.specs.Decimal.{places_of, decimal};
ghost use Rattle.events.specs.Lines.{line};

use wire::Refusal;

// Writes n, which has so many digits, at at, and behind it a byte that ends it; answers the place after them.
fn put_column(buf: &mut [u8], at: usize, n: u64, digits: usize, ends: u8) -> usize
    requires { (digits ≡ places_of n) × (at + digits + 1 ≤ length buf.old) }
    ensures { (result ≡ at + digits + 1) × (buf.new ≡ splice buf.old at (decimal n ++ (ends ∷ []))) }
{
    let end = at + digits;
    decimal::fill(&mut buf[at..end], n);
    buf[end] = ends;
    end + 1
}

// Writes the line of a record at at, and answers the place after it; 9 where it does not fit.
pub fn put_line(
    buf: &mut [u8],
    at: usize,
    index: u64,
    res: u64,
    cause: u64,
) -> Result<usize, Refusal>
    ensures { (result ≡ placed buf.old at (line index res cause)) × (buf.new ≡ written buf.old at (line index res cause)) }
{
    let first = decimal::places(index);
    let second = decimal::places(res);
    let third = decimal::places(cause);
    let length = first + second + third + 3;
    if buf.len() < at {
        return Err(Refusal::NoRoom);
    }
    if buf.len() - at < length {
        return Err(Refusal::NoRoom);
    }
    let after = put_column(buf, at, index, first, b' ');
    let last = put_column(buf, after, res, second, b' ');
    let next = put_column(buf, last, cause, third, b'\n');
    Ok(next)
}
