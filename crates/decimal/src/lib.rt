// Numbers in decimal: how many digits there are, and the digits themselves.
// Carries what the printed lines of documents 01 and 02 say of numbers.
// Every public function takes any number and any buffer, and refuses nothing.

#![tactic(auto)]

ghost use Rattle.std.specs.Prelude.{◌≡◌, [], ◌≤◌, length};
ghost use Rattle.decimal.specs.Decimal.{places_of, last_digits};

// How many decimal digits n has.
pub fn places(n: u64) -> usize
    ensures { (result ≡ places_of n) × (result ≤ 20) }
{
    match n.checked_ilog10() {
        Some(power) => power as usize + 1,
        None => 1,
    }
}

// Fills buf with the last digits of n, two at a time from the end.
// It counts by hand: a `for` over pairs would leave the odd digit to a second loop, and one digit a turn takes twice the divisions.
pub fn fill(buf: &mut [u8], n: u64)
    ensures { buf.new ≡ last_digits (length buf.old) n [] }
{
    let mut rest = n;
    let mut i = buf.len();
    while 2 <= i {
        let pair = (rest % 100) as u8;
        let last = i - 1;
        i -= 2;
        buf[last] = b'0' + pair % 10;
        buf[i] = b'0' + pair / 10;
        rest /= 100;
    }
    if i == 1 {
        buf[0] = b'0' + (rest % 10) as u8;
    }
}
