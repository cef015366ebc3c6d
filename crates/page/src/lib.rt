// The page of a week's totals: a line for each sum, or the refusal of a file that ends early.
// Carries of document 02, No. 13, what is printed; the program `week` prints it.
// The public function takes any totals and any bytes.

#![tactic(auto)]

ghost use Rattle.std.specs.Prelude.{◌≡◌, ◌+◌, ◌≤◌, ◌<◌, length};
ghost use Rattle.wire.specs.Bytes.{splice};
ghost use Rattle.decimal.specs.Decimal.{decimal};
ghost use Rattle.totals.specs.Totals.{places};
ghost use Rattle.page.specs.Page.{name_of, line, is_shown, lines, early, printed, longest_line, longest_page, page_placed, page_written};

use totals::{AT_LATE, AT_LOST, AT_RECEIVED, AT_TOTAL, PLACES, Standing, Totals};
use wire::Refusal;

// How many bytes a line takes at most: `entries not received `, twenty digits, and ` full` with the line's end.
const LINE: usize = 47;

// Room for the longest page.
const LONGEST_PAGE: usize = LINE * PLACES;

// Writes the text at at; answers the place after it.
fn put_text(buf: &mut [u8], at: usize, text: &[u8]) -> usize
    requires { at + length text.now ≤ length buf.old }
    ensures { (result ≡ at + length text.now) × (buf.new ≡ splice buf.old at text.now) }
{
    let end = at + text.len();
    buf[at..end].copy_from_slice(text);
    end
}

// Writes n in decimal at at; answers the place after it.
fn put_number(buf: &mut [u8], at: usize, n: u64) -> usize
    requires { at + 20 ≤ length buf.old }
    ensures { (result ≡ at + length (decimal n)) × (buf.new ≡ splice buf.old at (decimal n)) × (result ≤ at + 20) }
{
    let end = at + decimal::places(n);
    decimal::fill(&mut buf[at..end], n);
    end
}

// Writes what the place stands for, and a blank. The places are numbers, as the C struct totals::Totals has its sums by place.
fn put_name(buf: &mut [u8], at: usize, place: usize) -> usize
    requires { at + longest_line ≤ length buf.old }
    ensures { (result ≡ at + length (name_of place)) × (buf.new ≡ splice buf.old at (name_of place)) × (place < places → result ≤ at + 21) }
{
    match place {
        0 => put_text(buf, at, b"accepted "),
        AT_TOTAL => put_text(buf, at, b"total "),
        AT_RECEIVED => put_text(buf, at, b"received "),
        AT_LATE => put_text(buf, at, b"late "),
        AT_LOST => put_text(buf, at, b"lost "),
        25 => put_text(buf, at, b"entries received "),
        26 => put_text(buf, at, b"entries late "),
        27 => put_text(buf, at, b"entries not received "),
        28 => put_text(buf, at, b"entries partial "),
        _ => {
            let after = put_text(buf, at, b"refused ");
            let last = put_number(buf, after, place as u64);
            put_text(buf, last, b" ")
        }
    }
}

// Writes the line of a place at at; answers the place after it.
fn put_line(buf: &mut [u8], at: usize, place: usize, sum: u64, full: u64) -> usize
    requires { (place < places) × (at + longest_line ≤ length buf.old) }
    ensures { (result ≡ at + length (line place sum full)) × (buf.new ≡ splice buf.old at (line place sum full)) × (result ≤ at + longest_line) }
{
    let after = put_name(buf, at, place);
    let last = put_number(buf, after, sum);
    if full == 0 {
        put_text(buf, last, b"\n")
    } else {
        put_text(buf, last, b" full\n")
    }
}

// Whether a place has a line: a refusal that did not occur has none.
fn is_shown(place: usize, sum: u64) -> bool
    ensures { result ≡ is_shown place sum }
{
    if place == 0 {
        return true;
    }
    if AT_TOTAL <= place {
        return true;
    }
    0 < sum
}

// Writes the lines of all places at the start of buf.
fn put_lines(buf: &mut [u8], totals: Totals) -> usize
    requires { longest_page ≤ length buf.old }
    ensures { (result ≡ length (lines totals)) × (buf.new ≡ splice buf.old 0 (lines totals)) × (result ≤ longest_page) }
{
    let sums = totals.sums;
    let full = totals.full;
    let mut at: usize = 0;
    for place in 0..PLACES {
        let sum = sums[place];
        if is_shown(place, sum) {
            at = put_line(buf, at, place, sum, full[place]);
        }
    }
    at
}

// Writes the page of a file that ends early.
fn put_early(buf: &mut [u8]) -> usize
    requires { longest_page ≤ length buf.old }
    ensures { (result ≡ length early) × (buf.new ≡ splice buf.old 0 early) }
{
    put_text(buf, 0, b"2\n")
}

// Writes the page at the start of buf, which holds any; answers its length.
fn lay_out(buf: &mut [u8], standing: Standing, left: usize) -> usize
    requires { longest_page ≤ length buf.old }
    ensures { (result ≡ length (printed standing left)) × (buf.new ≡ splice buf.old 0 (printed standing left)) × (result ≤ longest_page) }
{
    let skip = standing.skip;
    if skip != 0 {
        return put_early(buf);
    }
    if left != 0 {
        return put_early(buf);
    }
    let totals = standing.totals;
    put_lines(buf, totals)
}

// Writes the page at the start of buf, where there is room for it. It is laid out elsewhere first: its length is known before a byte is stored.
// left is how many bytes of the file are left; where some are, or some are still to be skipped, it ended early.
pub fn put_page(buf: &mut [u8], standing: Standing, left: usize) -> Result<usize, Refusal>
    ensures { (result ≡ page_placed standing left buf.old) × (buf.new ≡ page_written standing left buf.old) }
{
    let mut page = [0u8; LONGEST_PAGE];
    let length = lay_out(&mut page, standing, left);
    if buf.len() < length {
        return Err(Refusal::NoRoom);
    }
    Ok(put_text(buf, 0, &page[..length]))
}
