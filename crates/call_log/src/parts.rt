// The parts of a line: each is written at a place, and the place after it is answered.
ghost use Rattle.std.specs.Prelude.{◌≡◌, ◌++◌, ◌+◌, ◌*◌, ◌≤◌, ◌<◌, length};
ghost use Rattle.decimal.specs.Decimal.{decimal};
ghost use Rattle.texts.specs.Forms.{or_null};
ghost use Rattle.texts.specs.Hex.{hex_digit, hex_text};
ghost use Rattle.call_log.specs.Laid.{Laid};

// A text as it is.
pub(crate) fn put_text(buf: &mut [u8], at: usize, text: &[u8]) -> usize
    requires { at + length text.now ≤ length buf.old }
    ensures { Laid buf.old at text.now buf.new result × (result ≤ at + length text.now) }
{
    let end = at + text.len();
    buf[at..end].copy_from_slice(text);
    end
}

// A number in decimal.
fn put_number(buf: &mut [u8], at: usize, n: u64) -> usize
    requires { at + 20 ≤ length buf.old }
    ensures { Laid buf.old at (decimal n) buf.new result × (result ≤ at + 20) }
{
    let end = at + texts::places(n);
    texts::fill(&mut buf[at..end], n);
    end
}

// A key and a number.
pub(crate) fn put_field(buf: &mut [u8], at: usize, key: &[u8], n: u64) -> usize
    requires { at + length key.now + 20 ≤ length buf.old }
    ensures { Laid buf.old at (key.now ++ decimal n) buf.new result × (result ≤ at + length key.now + 20) }
{
    let next = put_text(buf, at, key);
    put_number(buf, next, n)
}

// A key and what may be absent: the number below the end, or null.
pub(crate) fn put_end(buf: &mut [u8], at: usize, key: &[u8], end: u64) -> usize
    requires { at + length key.now + 20 ≤ length buf.old }
    ensures { Laid buf.old at (key.now ++ or_null end) buf.new result × (result ≤ at + length key.now + 20) }
{
    let next = put_text(buf, at, key);
    if end == 0 {
        return put_text(buf, next, b"null");
    }
    put_number(buf, next, end - 1)
}

// The digit of a number below 16.
fn hex_digit(n: u8) -> u8
    requires { n < 16 }
    ensures { result ≡ hex_digit n }
{
    if n < 10 { b'0' + n } else { b'a' - 10 + n }
}

// Bytes in hexadecimal.
pub(crate) fn put_hex(buf: &mut [u8], at: usize, bytes: &[u8]) -> usize
    requires { at + 2 * length bytes.now ≤ length buf.old }
    ensures { Laid buf.old at (hex_text bytes.now) buf.new result × (result ≤ at + 2 * length bytes.now) }
{
    let mut to = at;
    for i in 0..bytes.len() {
        let b = bytes[i];
        let next = to + 1;
        buf[to] = hex_digit(b / 16);
        buf[next] = hex_digit(b % 16);
        to += 2;
    }
    to
}
