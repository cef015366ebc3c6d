// A frame's type, which its reader reads first.
ghost use Rattle.std.specs.Prelude.{◌≡◌};
ghost use Rattle.frames.specs.Types.{read_type};

use crate::Kind;
use wire::{Number, Refusal};

// Reads the type that s starts with, in its shortest form. Its number is taken apart by `let .. else`, as each reader of a frame does with each field:
// document 01 names this form ("Readers go field by field and give the first fault").
pub(crate) fn read_type(s: &[u8]) -> Result<Kind, Refusal>
    ensures { result ≡ read_type s.now }
{
    let Ok(
        Number {
            value: kind,
            next,
            shortest,
        },
    ) = wire::read_number(s, 0)
    else {
        return Err(Refusal::Ends);
    };
    if !shortest {
        return Err(Refusal::OtherType);
    }
    Ok(Kind { kind, next })
}
