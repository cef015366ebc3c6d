// The number that the paper's table has for each refusal, and for an answer.
ghost use Rattle.std.specs.Prelude.{◌≡◌};
ghost use Rattle.wire.specs.Refusals.{number_of, refusal_number};

use crate::Refusal;

impl Refusal {
    // The paper's number.
    pub fn number(self) -> u64
        ensures { result ≡ number_of self }
    {
        self as u64
    }
}

// The paper's number for an answer, 0 for accepted.
pub fn refusal_number<T>(answer: &Result<T, Refusal>) -> u64
    ensures { result ≡ refusal_number answer.now }
{
    match answer {
        Ok(_) => 0,
        Err(refusal) => refusal.number(),
    }
}
