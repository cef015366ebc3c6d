// The two units of delay, the one conversion between them, and the delay rule.
ghost use Rattle.std.specs.Prelude.{◌≡◌, ◌-◌, ◌<◌};
ghost use Rattle.receiver.specs.Record.{micros_of, limits_rule, delay_rule};

use crate::{Limits, Millis};
use seen::Micros;

impl Millis {
    // The same delay in microseconds.
    pub(crate) fn micros(self) -> Micros
        requires { self.0 < 16384 }
        ensures { result ≡ micros_of self }
    {
        Micros(self.0 * 1000)
    }
}

impl Limits {
    // Whether the maximum is below 16,384 ms and the minimum not above it.
    #[tactic(auto, unfolding(crate::specs::Record::limits_rule))]
    pub(crate) fn allowed(self) -> bool
        ensures { result ≡ limits_rule self }
    {
        self.maximum.0 < 16384 && self.minimum.0 <= self.maximum.micros().0
    }

    // Whether a delay is below 16,384,000 microseconds and not below the minimum.
    #[tactic(auto, unfolding(crate::specs::Record::delay_rule))]
    pub(crate) fn allow(self, delay: Micros) -> bool
        ensures { result ≡ delay_rule self delay }
    {
        delay.0 < 16384000 && self.minimum.0 <= delay.0
    }
}
