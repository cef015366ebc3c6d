// A walk down the window by the edges of its runs: the rest of one word is kept, and each run's end is its highest 1, whichever mark is looked for.
ghost use Rattle.std.specs.Prelude.{◌≡◌, true, false, not, ◌+◌, ◌-◌, ◌*◌, ◌^◌, ◌<◌};
ghost use Rattle.window.specs.Words.{other_than};
ghost use Rattle.window.specs.Window.{places, lent_value, run_below, cleared_below};
ghost use Rattle.ack.specs.Walk.{Others};

use seen::numbers;

// A word in which every place is marked.
const ONES: u64 = 18446744073709551615;

// Where a run of places with one mark ends, and the places of that word below it which have this mark again.
#[derive(Clone, Copy)]
pub(crate) struct Edge {
    pub place: u64,
    pub index: usize,
    pub left: u64,
}

// A range by its size, and by how many numbers are missing between it and the place above; of size 0 where there is none.
// Then the word that holds its lower end, and the marks in it below that.
#[derive(Clone, Copy)]
pub(crate) struct Range {
    pub missing: u64,
    pub size: u64,
    pub index: usize,
    pub left: u64,
}

// The word with a 1 at each place whose mark is not `marked`. The crate window has the same for itself: a shared one would be no plainer.
fn other_than(marked: bool, word: u64) -> u64
    ensures { (result ≡ other_than marked word) × (word < 2 ^ 64) }
{
    if marked { !word } else { word }
}

// The places of a word whose mark is not `marked`.
pub(crate) fn others_in(words: &[u64; 16], i: usize, marked: bool) -> u64
    requires { i < 16 }
    ensures { Others marked (lent_value words.now) (64 * i + 64) i result }
{
    let word = words[i];
    other_than(marked, word)
}

// Goes down from a place over those with the mark, from the rest `left` of the word at `index`; whole words are passed over.
pub(crate) fn edge_below(
    words: &[u64; 16],
    place: u64,
    index: usize,
    left: u64,
    marked: bool,
) -> Edge
    requires { Others marked (lent_value words.now) place index left }
    ensures { (result.place ≡ place - run_below marked place (lent_value words.now)) × Others (not marked) (lent_value words.now) result.place result.index result.left }
{
    let mut i = index;
    let mut rest = left;
    while rest == 0 {
        if i == 0 {
            return Edge {
                place: 0,
                index: 0,
                left: 0,
            };
        }
        i -= 1;
        rest = others_in(words, i, marked);
    }
    let zeros = u64::leading_zeros(rest) as u64;
    let ones = ONES >> zeros;
    Edge {
        place: 64 * (i as u64) + (64 - zeros),
        index: i,
        left: ones - rest,
    }
}

// How many places directly below the last one's end are marked: whole words are passed over.
fn first_run(words: &[u64; 16]) -> u64
    ensures { result ≡ run_below true places (lent_value words.now) }
{
    for i in (0..16).rev() {
        let other = others_in(words, i, true);
        if other != 0 {
            return 64 * (15 - i as u64) + u64::leading_zeros(other) as u64;
        }
    }
    window::PLACES
}

// How many numbers the newest range has: it ends with L, whose place is the last, and no mark below place `least` counts.
pub(crate) fn first_size(words: &[u64; 16], least: u64) -> u64
    requires { least < places }
    ensures { result ≡ run_below true places (cleared_below least (lent_value words.now)) }
{
    let run = first_run(words);
    let low = numbers::larger_of(window::PLACES - run, least);
    window::PLACES - low
}

// The newest range below a place; no mark below place `least` counts.
pub(crate) fn range_at(words: &[u64; 16], least: u64, place: u64, index: usize, left: u64) -> Range
    requires { (least < place) × Others false (lent_value words.now) place index left }
    ensures { (result.missing ≡ run_below false place (cleared_below least (lent_value words.now)))
        × (result.size ≡ run_below true (place - run_below false place (cleared_below least (lent_value words.now))) (cleared_below least (lent_value words.now)))
        × (least < place - result.missing - result.size → Others false (lent_value words.now) (place - result.missing - result.size) result.index result.left) }
{
    let top = edge_below(words, place, index, left, false);
    if top.place <= least {
        return Range {
            missing: place,
            size: 0,
            index,
            left,
        };
    }
    let bottom = edge_below(words, top.place, top.index, top.left, true);
    let low = numbers::larger_of(bottom.place, least);
    Range {
        missing: place - top.place,
        size: top.place - low,
        index: bottom.index,
        left: bottom.left,
    }
}
