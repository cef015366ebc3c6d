// One number: read in any of its forms, and written in its shortest.
ghost use Rattle.std.specs.Prelude.{◌≡◌, [], ◌∷◌, ◌<◌, ◌≤◌, length, get_or, MatchResult};
ghost use Rattle.wire.specs.Fields.{read_fixed, placed, written};
ghost use Rattle.wire.specs.Numbers.{len_of, room_of, limit, code_of, width_of, below_code, read_number, form, put_answer, put_bytes};
ghost use Rattle.wire.specs.declared.Refusal.TheVariants.{TooLarge};

use crate::fields::{put_fixed, read_fixed};
use crate::{Fit, Fixed, Number, Refusal, form_at};

// The shortest form that holds v, if one does: 1, 2, 4 and 8 bytes hold 6, 14, 30 and 62 bits, since two bits are the code.
// A number has 64 bits less its leading zeros. Short numbers come first: most are.
pub(crate) fn shortest(v: u64) -> Result<Fit, Refusal>
    ensures { MatchResult result (λ fit. (fit.code ≡ code_of v) × (fit.code < 4) × (fit.len ≡ width_of v)) (λ refusal. (refusal ≡ TooLarge) × (limit < v)) }
{
    let bits = 64 - v.leading_zeros();
    if bits <= 6 {
        return Ok(Fit { code: 0, len: 1 });
    }
    if bits <= 14 {
        return Ok(Fit { code: 1, len: 2 });
    }
    if bits <= 30 {
        return Ok(Fit { code: 2, len: 4 });
    }
    if bits <= 62 {
        return Ok(Fit { code: 3, len: 8 });
    }
    Err(Refusal::TooLarge)
}

// How many bytes v takes, or 0 where it is above 2^62 - 1: no Option, since the theorems add up `width_of`, which is 0 there.
pub fn width(v: u64) -> usize
    ensures { result ≡ width_of v }
{
    match shortest(v) {
        Ok(fit) => fit.len,
        Err(_) => 0,
    }
}

// The same by the table: the first form whose largest value is not below v. It is for tests, which hold `width` to it.
pub fn width_by_table(v: u64) -> usize
    ensures { result ≡ width_of v }
{
    for code in 0..4 {
        let f = form_at(code);
        if v <= f.largest {
            return f.len;
        }
    }
    0
}

// Reads the field of the code's length at at: its bits below the code are the value.
fn read_form(s: &[u8], at: usize, code: usize) -> Result<Fixed, Refusal>
    requires { code < 4 }
    ensures { result ≡ below_code code (read_fixed (len_of code) s.now at) }
{
    let f = form_at(code);
    let Ok(Fixed { value, next }) = read_fixed(s, at, f.len) else {
        return Err(Refusal::Ends);
    };
    Ok(Fixed {
        value: value % (f.largest + 1),
        next,
    })
}

// The same for a code from 1 on. Each arm has its length as a constant, so that it compiles to a few loads.
fn read_longer_form(s: &[u8], at: usize, code: usize) -> Result<Fixed, Refusal>
    requires { (0 < code) × (code < 4) }
    ensures { result ≡ below_code code (read_fixed (len_of code) s.now at) }
{
    match code {
        1 => read_form(s, at, 1),
        2 => read_form(s, at, 2),
        _ => read_form(s, at, 3),
    }
}

// Reads the number at at, whose first byte gives a code from 1 on.
// The form is the shortest where the next shorter one does not hold the value: asked once, for every length.
fn read_longer(s: &[u8], at: usize) -> Result<Number, Refusal>
    requires { (at < length s.now) × (64 ≤ get_or s.now at 0) }
    ensures { result ≡ read_number s.now at }
{
    let code = usize::from(s[at] / 64);
    let Ok(Fixed { value, next }) = read_longer_form(s, at, code) else {
        return Err(Refusal::Ends);
    };
    let shorter = form_at(code - 1);
    let shortest = shorter.largest < value;
    Ok(Number {
        value,
        next,
        shortest,
    })
}

// Reads the number at at. A form that is longer than it need be is accepted, and told.
// Most numbers take one byte: that is little code, and callers have it in line, without a call and an answer in memory.
#[inline(always)]
pub fn read_number(s: &[u8], at: usize) -> Result<Number, Refusal>
    ensures { result ≡ read_number s.now at }
{
    if s.len() <= at {
        return Err(Refusal::Ends);
    }
    let first = u64::from(s[at]);
    let short = form_at(0);
    if first <= short.largest {
        return Ok(Number {
            value: first,
            next: at + short.len,
            shortest: true,
        });
    }
    read_longer(s, at)
}

// Writes v at at in the form of the code.
fn put_form(buf: &mut [u8], at: usize, code: usize, v: u64) -> Result<usize, Refusal>
    requires { (code < 4) × (v < room_of code) }
    ensures { (result ≡ placed buf.old at (form code v)) × (buf.new ≡ written buf.old at (form code v)) }
{
    let f = form_at(code);
    let n = (code as u64) * (f.largest + 1) + v;
    put_fixed(buf, at, f.len, n)
}

// Writes v at at in its shortest form.
pub fn put_number(buf: &mut [u8], at: usize, v: u64) -> Result<usize, Refusal>
    ensures { (result ≡ put_answer buf.old at (v ∷ [])) × (buf.new ≡ put_bytes buf.old at (v ∷ [])) }
{
    let fit = shortest(v)?;
    // Each arm has its length as a constant, so that it compiles to a few stores.
    match fit.code {
        0 => put_form(buf, at, 0, v),
        1 => put_form(buf, at, 1, v),
        2 => put_form(buf, at, 2, v),
        _ => put_form(buf, at, 3, v),
    }
}
