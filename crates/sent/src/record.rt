// What the words of the record say, and which records are consistent.
ghost use Rattle.std.specs.Prelude.{◌≡◌, ◌-◌, ◌+◌, ◌≤◌, length};
ghost use Rattle.marks.specs.Marks.{none_in};
ghost use Rattle.sent.specs.Record.{DueMarks, wrong_bit, word_wrong, wrong_at, most_held, next_of, end_of, floor_of, numbers_agree, consistent};

use crate::{AT_ACKED_BEFORE, AT_END, AT_LOST, AT_LOST_BEFORE, AT_NEXT, HELD, WORDS};
use marks::add_range;
use wire::LARGEST;

// The oldest number held, after `next` were sent.
pub(crate) fn floor_of(next: u64) -> u64
    ensures { result ≡ next - most_held }
{
    next.saturating_sub(HELD)
}

// Whether the numbers of the record agree: next, the end of the largest acknowledged, and the totals of the forgotten.
fn numbers_agree(next: u64, end: u64, acked: u64, lost: u64) -> bool
    ensures { result ≡ numbers_agree next end acked lost }
{
    let gone = floor_of(next);
    next <= LARGEST + 1 && end <= next && acked <= gone && gone - acked == lost
}

// Whether no bit of a word is wrong: due and outside have those of the numbers that the rule settles, and of those that are not held.
fn word_agrees(acked: u64, lost: u64, due: u64, outside: u64) -> bool
    ensures { result ≡ none_in (wrong_bit acked lost due outside) 64 0 }
{
    let either = acked | lost;
    acked & lost == 0 && due & !either == 0 && outside & either == 0
}

// Whether no bit of the sixteen words is wrong.
fn words_agree(losses: &[u64; WORDS], due: &[u64; 16], outside: &[u64; 16]) -> bool
    ensures { result ≡ none_in (word_wrong losses.now due.now outside.now) 16 0 }
{
    for i in 0..16 {
        if !word_agrees(losses[i], losses[AT_LOST + i], due[i], outside[i]) {
            return false;
        }
    }
    true
}

// The marks of the numbers from the oldest held on that the rule settles: the largest acknowledged is at least n + 3.
pub(crate) fn due_marks(floor: u64, end: u64) -> [u64; 16]
    ensures { DueMarks result floor end }
{
    let mut due = [0u64; 16];
    add_range(&mut due, floor, end.saturating_sub(3));
    due
}

// Whether the marks of the record agree with its numbers.
fn marks_agree(losses: &[u64; WORDS]) -> bool
    requires { end_of losses.now ≤ next_of losses.now }
    ensures { result ≡ none_in (wrong_at losses.now) most_held (floor_of losses.now) }
{
    let next = losses[AT_NEXT];
    let floor = floor_of(next);
    let due = due_marks(floor, losses[AT_END]);
    let mut outside = [0u64; 16];
    add_range(&mut outside, next, HELD);
    words_agree(losses, &due, &outside)
}

// Whether the record is consistent.
pub(crate) fn consistent(losses: &[u64; WORDS]) -> bool
    ensures { result ≡ consistent losses.now }
{
    let next = losses[AT_NEXT];
    let end = losses[AT_END];
    numbers_agree(next, end, losses[AT_ACKED_BEFORE], losses[AT_LOST_BEFORE]) && marks_agree(losses)
}
