// The numbers of the window: which are refused, what an accepted one marks, which are reported no more, and the first that is missing.
ghost use Rattle.std.specs.Prelude.{◌≡◌, ◌-◌, ◌≤◌};
ghost use Rattle.wire.specs.Bytes.{pick};
ghost use Rattle.wire.specs.Refusals.{refusal_number};
ghost use Rattle.seen.specs.Numbers.{small};
ghost use Rattle.seen.specs.Received.{over, floor, place_of, number_check, number_refusal, marked, confirmed_after, first_missing};

use crate::{Micros, Seen, numbers};
use wire::Refusal;

// The place in the window of a number up to the end of L.
fn place_of(end: u64, number: u64) -> u64
    requires { number ≤ end }
    ensures { result ≡ place_of end number }
{
    numbers::minus_or_zero(window::PLACES, end - number)
}

impl Seen {
    // The smallest number that is still looked at: of the window, and from the record's own floor on.
    pub fn floor(self) -> u64
        ensures { result ≡ floor self }
    {
        let lowest = numbers::minus_or_zero(self.end, window::PLACES);
        numbers::larger_of(self.confirmed, lowest)
    }

    // Whether the number can be accepted: it is refused below the floor, and from it on where it is marked in the lent words.
    #[tactic(auto, unfolding(crate::specs::Received::number_check, crate::specs::Received::number_refusal))]
    pub fn check_in(self, words: &[u64; 16], number: u64) -> Result<(), Refusal>
        ensures { (result ≡ number_check (over words.now self) number) × (refusal_number result ≡ number_refusal (over words.now self) number) }
    {
        let end = self.end;
        if end <= number {
            return Ok(());
        }
        if number < self.floor() {
            return Err(Refusal::BelowWindow);
        }
        if window::is_marked(words, place_of(end, number)) {
            return Err(Refusal::Received);
        }
        Ok(())
    }

    // Marks the number in the lent words, and hands back the rest; L moves if it is exceeded. A number that does not obey 5 changes nothing.
    #[tactic(auto, unfolding(crate::specs::Received::seen_after))]
    pub fn with_in(self, words: &mut [u64; 16], number: u64, time: Micros) -> Seen
        ensures { (result ≡ over self.window.words (marked (over words.old self) number time))
            × (words.new ≡ (marked (over words.old self) number time).window.words) }
    {
        if !numbers::is_small(number) {
            return self;
        }
        let end = self.end;
        if number < end {
            window::mark(words, place_of(end, number));
            return self;
        }
        let end_after = number + 1;
        window::advance(words, end_after - end);
        window::mark(words, window::LAST);
        Seen {
            end: end_after,
            arrived: time,
            ..self
        }
    }

    // With numbers up to k reported no more: the floor rises to k + 1, or to L where k is L, and never falls.
    // A k that does not obey 5 changes nothing.
    #[tactic(auto, unfolding(crate::specs::Received::confirmed_after))]
    pub fn confirm(self, k: u64) -> Seen
        ensures { result ≡ pick (small k) (confirmed_after self k) self }
    {
        if !numbers::is_small(k) {
            return self;
        }
        let largest = numbers::minus_or_zero(self.end, 1);
        let risen = (k + 1).min(largest);
        Seen {
            confirmed: numbers::larger_of(self.confirmed, risen),
            ..self
        }
    }

    // The place of the first missing number of the lent words from `from` up to below `to`.
    #[tactic(auto, unfolding(crate::specs::Received::first_missing))]
    pub fn first_missing_in(self, words: &[u64; 16], from: u64, to: u64) -> Option<u64>
        ensures { result ≡ first_missing (over words.now self) from to }
    {
        let end = self.end;
        let low = numbers::larger_of(from, self.floor());
        let high = to.min(end);
        if high <= low {
            return None;
        }
        window::first_missing(words, place_of(end, low), place_of(end, high))
    }
}
