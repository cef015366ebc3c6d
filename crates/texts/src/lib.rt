// Text for lines: numbers in decimal; and, as definitions, forms with their values and bytes in hexadecimal.
// Carries what the line of a logged call says of numbers and frames.
// Every public function takes any number and any buffer, and refuses nothing.

#![tactic(auto)]

ghost use Rattle.std.specs.Prelude.{◌≡◌, [], ◌≤◌, length};
ghost use Rattle.decimal.specs.Decimal.{places_of, last_digits};

// How many decimal digits n has.
pub fn places(n: u64) -> usize
    ensures { (result ≡ places_of n) × (result ≤ 20) }
{
    decimal::places(n)
}

// Fills buf with the last digits of n.
pub fn fill(buf: &mut [u8], n: u64)
    ensures { buf.new ≡ last_digits (length buf.old) n [] }
{
    decimal::fill(buf, n);
}
