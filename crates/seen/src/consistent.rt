// What consistent means of what was received.
ghost use Rattle.std.specs.Prelude.{◌≡◌};
ghost use Rattle.window.specs.Words.{number_of};
ghost use Rattle.seen.specs.Received.{numbers_obey, marks_fit, seen_consistent};

use crate::{Seen, numbers};

impl Seen {
    // Whether its numbers obey 5, and the floor is at most L.
    pub fn numbers_obey(self) -> bool
        ensures { result ≡ numbers_obey self }
    {
        numbers::is_small_end(self.end)
            && numbers::is_small(self.arrived.0)
            && self.confirmed <= numbers::minus_or_zero(self.end, 1)
    }

    // Whether the marks of the lent words fit the end of L. From 1,024 numbers on every place stands for one, and the words are not looked through.
    pub fn marks_fit(self, words: &[u64; 16]) -> bool
        ensures { result ≡ marks_fit (number_of words.now) self.end }
    {
        let end = self.end;
        if window::PLACES <= end {
            return window::is_marked(words, window::LAST);
        }
        window::none_below(words, window::PLACES - end)
            && (end == 0 || window::is_marked(words, window::LAST))
    }

    // Whether what was received is consistent. The window comes last: it costs most.
    #[tactic(auto, unfolding(crate::specs::Received::seen_consistent))]
    pub fn consistent(self) -> bool
        ensures { result ≡ seen_consistent self }
    {
        self.numbers_obey() && self.marks_fit(&self.window.words)
    }
}
