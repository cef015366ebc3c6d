// Marks of numbers in a ring of sixteen words: set by ranges, found by trailing zeros.
// The loss list of request No. 9 of document 02 keeps its numbers so, and a send moves none of them.

#![tactic(auto)]

ghost use Rattle.std.specs.Prelude.{◌≡◌, ◌+◌, ◌-◌, length, take};
ghost use Rattle.wire.specs.Bytes.{splice};
ghost use Rattle.marks.specs.Marks.{mark, first_in, found_below, listed, with_range};

// The larger of two numbers: the largest acknowledged is that over all frames so far. It is the library's, under a name of its own since a
// theorem says of it that no other result would do, and of a function of the library none can be stated here.
pub fn larger(a: u64, b: u64) -> u64
    ensures { result ≡ a + (b - a) }
{
    a.max(b)
}

// Marks the numbers from `from` on and below `to`, word by word.
pub fn add_range(words: &mut [u64; 16], from: u64, to: u64)
    ensures { words.new ≡ with_range words.old (to - from) from }
{
    let mut at = from;
    // A while: the first step and the last are parts of a word.
    while at < to {
        let i = (at / 64 % 16) as usize;
        let k = at % 64;
        let len = (64 - k).min(to - at);
        let ones = u64::MAX >> (64 - len);
        words[i] |= ones << k;
        at += len;
    }
}

// The first marked number from `from` on and below `to`, if any.
pub fn next_marked(words: &[u64; 16], from: u64, to: u64) -> Option<u64>
    ensures { result ≡ found_below to (first_in (mark words.now) (to - from) from) }
{
    let mut at = from;
    // A while: the first step is what is left of a word.
    while at < to {
        let i = (at / 64 % 16) as usize;
        let k = at % 64;
        let rest = words[i] >> k;
        if rest != 0 {
            let found = at + u64::trailing_zeros(rest) as u64;
            if found < to {
                return Some(found);
            }
            return None;
        }
        if to - at <= 64 - k {
            return None;
        }
        at += 64 - k;
    }
    None
}

// The same: of numbers that are marked in a row each is found where the search begins.
fn next_in_row(words: &[u64; 16], from: u64, to: u64) -> Option<u64>
    ensures { result ≡ found_below to (first_in (mark words.now) (to - from) from) }
{
    let i = (from / 64 % 16) as usize;
    let bit = (words[i] >> (from % 64)) % 2;
    if bit == 1 && from < to {
        return Some(from);
    }
    next_marked(words, from, to)
}

// How many numbers from `from` on and below `to` are marked.
pub fn count_marks(words: &[u64; 16], from: u64, to: u64) -> u64
    ensures { result ≡ length (listed (mark words.now) (to - from) from) }
{
    let mut count: u64 = 0;
    let mut at = from;
    while let Some(found) = next_in_row(words, at, to) {
        count += 1;
        at = found + 1;
    }
    count
}

// Writes the marked numbers from `from` on and below `to`, rising: as many as the list has room for.
pub fn list_marks(list: &mut [u64], words: &[u64; 16], from: u64, to: u64)
    ensures { list.new ≡ splice list.old 0 (take (length list.old) (listed (mark words.now) (to - from) from)) }
{
    let mut at = from;
    for place in list {
        let Some(found) = next_in_row(words, at, to) else {
            return;
        };
        *place = found;
        at = found + 1;
    }
}
