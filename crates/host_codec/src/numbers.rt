// Numbers on the wire.
ghost use Rattle.std.specs.Prelude.{◌≡◌, [], ◌∷◌};
ghost use Rattle.wire.specs.Numbers.{read_number, put_answer, put_bytes};
ghost use Rattle.host_codec.specs.Numbers.{number_out, put_out};

use crate::{NumberOut, PutOut};
use wire::{Number, Refusal};

// A value, the place after it and 1 for the shortest form, or the refusal.
#[tactic(auto, unfolding(crate::specs::Numbers::number_out))]
fn number_out(answer: Result<Number, Refusal>) -> NumberOut
    ensures { result ≡ number_out answer }
{
    match answer {
        Ok(number) => NumberOut {
            result: 0,
            value: number.value,
            next: number.next as u64,
            shortest: u64::from(number.shortest),
        },
        Err(refusal) => NumberOut {
            result: refusal.number(),
            ..NumberOut::default()
        },
    }
}

// The place after what was written, or the refusal.
#[tactic(auto, unfolding(crate::specs::Numbers::put_out))]
pub(crate) fn put_out(answer: Result<usize, Refusal>) -> PutOut
    ensures { result ≡ put_out answer }
{
    match answer {
        Ok(next) => PutOut {
            result: 0,
            next: next as u64,
        },
        Err(refusal) => PutOut {
            result: refusal.number(),
            ..PutOut::default()
        },
    }
}

// Reads the number that starts at a place.
pub fn lumbixet_read_number(bytes: &[u8], at: usize) -> NumberOut
    ensures { result ≡ number_out (read_number bytes.now at) }
{
    let answer = wire::read_number(bytes, at);
    number_out(answer)
}

// Writes a number at a place in its shortest form.
pub fn lumbixet_put_number(buffer: &mut [u8], at: usize, value: u64) -> PutOut
    ensures { (result ≡ put_out (put_answer buffer.old at (value ∷ []))) × (buffer.new ≡ put_bytes buffer.old at (value ∷ [])) }
{
    let answer = wire::put_number(buffer, at, value);
    put_out(answer)
}
