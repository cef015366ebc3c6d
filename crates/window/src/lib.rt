// The receive window: which of the last 1,024 numbers, from the floor up to L, were received (01, "The receiver record").
// It is one number W below 2 ^ 1024, kept as sixteen words: place 1,023 stands for L, and place 1,023 - d for L - d.
// Searches go word by word: trailing zeros of the inverted words find the first missing number (01, "Code places and their forms").

#![tactic(auto)]

ghost use Rattle.std.specs.Prelude.{◌≡◌, ◌*◌, ◌/◌, ◌-◌, ◌^◌, ◌<◌, ◌≤◌};
ghost use Rattle.window.specs.Words.{number_of, words_of, words_in, other_than};
ghost use Rattle.window.specs.Window.{places, value_of, lent_value, window_of, is_set, with_bit, first_clear, run_below, none_below};

// How many places a window has.
pub const PLACES: u64 = 1024;

// The last place: L's own.
pub const LAST: u64 = PLACES - 1;

#[repr(C)]
#[derive(Clone, Copy)]
pub struct Window {
    // The words of W, the lowest first.
    pub words: [u64; 16],
}

// The word with a 1 at each place whose mark is not `marked`. That it was a word is said for callers that read it behind a reference.
fn other_than(marked: bool, word: u64) -> u64
    ensures { (result ≡ other_than marked word) × (word < 2 ^ 64) }
{
    if marked { !word } else { word }
}

// How many places directly below place n are marked, or, with `marked` false, are not, where n is at most 1,024.
fn run_within(words: &[u64; 16], n: u64, marked: bool) -> u64
    requires { n ≤ places }
    ensures { result ≡ run_below marked n (lent_value words.now) }
{
    let mut left = n;
    // A while: the first step is what is left of a word.
    while 0 < left {
        let i = ((left - 1) / 64) as usize;
        let k = (left - 1) % 64;
        let word = words[i];
        let other = other_than(marked, word);
        let rest = other << (63 - k);
        if rest != 0 {
            return n - left + u64::leading_zeros(rest) as u64;
        }
        left -= k + 1;
    }
    n
}

// How many places directly below place n are marked, or, with `marked` false, are not.
// The words are lent: a caller that goes over all runs asks this in a loop, and a window by value would be copied in each turn.
pub fn run_below(words: &[u64; 16], n: u64, marked: bool) -> u64
    ensures { result ≡ run_below marked n (lent_value words.now) }
{
    if n <= PLACES {
        return run_within(words, n, marked);
    }
    if marked {
        return 0;
    }
    n - PLACES + run_within(words, PLACES, false)
}

// Says that an array of words is sixteen words. It is for proofs, of what lies behind a reference and was copied out; no code is made of it.
// Behind a reference only the length is told: without this call the proofs did not close.
fn told_words(words: [u64; 16])
    ensures { words_in 16 words ≡ words }
{}

// Whether a place is marked. No place from 1,024 on is.
pub fn is_marked(words: &[u64; 16], place: u64) -> bool
    ensures { result ≡ is_set (number_of words.now) place }
{
    let own = *words;
    told_words(own);
    if PLACES <= place {
        return false;
    }
    let i = (place / 64) as usize;
    let word = words[i];
    let k = place % 64;
    let bit = (word >> k) % 2;
    bit == 1
}

// Marks a place. A place that is marked, or lies from 1,024 on, changes nothing.
pub fn mark(words: &mut [u64; 16], place: u64)
    ensures { words.new ≡ words_of 16 (with_bit (number_of words.old) place) }
{
    let own = *words;
    told_words(own);
    if PLACES <= place {
        return;
    }
    let i = (place / 64) as usize;
    let k = place % 64;
    let word = words[i];
    let b = (word >> k) % 2;
    if b == 1 {
        return;
    }
    words[i] = word + (1 << k);
}

// Moves the marks q words down.
fn words_down(words: &mut [u64; 16], q: usize)
    ensures { words.new ≡ words_of 16 (number_of words.old / 2 ^ (64 * q)) }
{
    let own = *words;
    told_words(own);
    let mut next = [0u64; 16];
    // By index, since q may be above 16: a slice from q on would have to be cut first.
    for i in q..16 {
        next[i - q] = own[i];
    }
    *words = next;
}

// Moves the marks s places down, less than a word.
fn bits_down(words: &mut [u64; 16], s: u64)
    requires { s < 64 }
    ensures { words.new ≡ words_of 16 (number_of words.old / 2 ^ s) }
{
    let own = *words;
    told_words(own);
    if s == 0 {
        return;
    }
    for i in 0..15 {
        words[i] = (own[i] >> s) + (own[i + 1] << (64 - s));
    }
    words[15] = own[15] >> s;
}

// Moves each mark d places down; those that would go below place 0 are dropped.
pub fn advance(words: &mut [u64; 16], d: u64)
    ensures { words.new ≡ words_of 16 (number_of words.old / 2 ^ d) }
{
    let own = *words;
    told_words(own);
    if PLACES <= d {
        let none = [0u64; 16];
        *words = none;
        return;
    }
    // Most packets come in order: a distance known to the compiler makes the shifts cheap.
    if d == 1 {
        bits_down(words, 1);
        return;
    }
    let q = (d / 64) as usize;
    let s = d % 64;
    if q == 0 {
        bits_down(words, s);
        return;
    }
    words_down(words, q);
    bits_down(words, s);
}

// The smallest place from `from` on and below `to` that is not marked, if any.
pub fn first_missing(words: &[u64; 16], from: u64, to: u64) -> Option<u64>
    ensures { result ≡ first_clear (to - from) from (number_of words.now) }
{
    let own = *words;
    told_words(own);
    let mut at = from;
    // A while: the first step is what is left of a word.
    while at < to {
        if PLACES <= at {
            return Some(at);
        }
        let i = (at / 64) as usize;
        let k = at % 64;
        let word = words[i];
        let rest = !word >> k;
        if rest != 0 {
            let place = at + u64::trailing_zeros(rest) as u64;
            if place < to {
                return Some(place);
            }
            return None;
        }
        at += 64 - k;
    }
    None
}

// Whether no place below place p is marked: the run of places that are not has them all.
pub fn none_below(words: &[u64; 16], p: u64) -> bool
    ensures { result ≡ none_below p (number_of words.now) }
{
    let own = *words;
    told_words(own);
    run_below(words, p, false) == p
}

impl Window {
    // The window in which no place is marked.
    pub fn empty() -> Self
        ensures { result ≡ window_of 0 }
    {
        Window { words: [0u64; 16] }
    }
}
