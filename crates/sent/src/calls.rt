// Opening, and a send.
ghost use Rattle.std.specs.Prelude.{◌≡◌, ◌<◌};
ghost use Rattle.wire.specs.Refusals.{number_of, refusal_number};
ghost use Rattle.sent.specs.Calls.{opened, is_held_back, send_refusal, send_after, send_answer, cleared};

use crate::record::consistent;
use crate::{AT_ACKED_BEFORE, AT_LOST, AT_LOST_BEFORE, AT_NEXT, HELD, Sent, WORDS};
use wire::{LARGEST, Refusal};

// Opens a loss list: nothing was sent. What stood in the words is not looked at.
pub fn open(losses: &mut [u64; WORDS])
    ensures { losses.new ≡ opened }
{
    *losses = [0u64; WORDS];
}

// A word without the mark at bit k.
fn cleared(word: u64, k: u64) -> u64
    requires { k < 64 }
    ensures { result ≡ cleared word k }
{
    let bit = (word >> k) % 2;
    word - (bit << k)
}

// Whether a send is refused, and why.
fn check_send(losses: &[u64; WORDS]) -> Result<(), Refusal>
    ensures { refusal_number result ≡ send_refusal losses.now }
{
    if !consistent(losses) {
        return Err(Refusal::Inconsistent);
    }
    let next = losses[AT_NEXT];
    if LARGEST < next {
        return Err(Refusal::TooLarge);
    }
    if next < HELD {
        return Ok(());
    }
    let i = (next / 64 % 16) as usize;
    let either = losses[i] | losses[AT_LOST + i];
    let bit = (either >> (next % 64)) % 2;
    if bit == 0 {
        return Err(Refusal::NoRoom);
    }
    Ok(())
}

// A refusal, with no number sent.
impl From<Refusal> for Sent {
    ghost from_gives = { λ refusal sent. sent ≡ record { result = number_of refusal; number = 0 } };

    fn from(refusal: Refusal) -> Sent {
        Sent {
            result: refusal.number(),
            number: 0,
        }
    }
}

// Sends the next number. Where 1,024 are held it uses the room of the oldest, which is no longer outstanding and keeps its state in the totals.
pub fn send(losses: &mut [u64; WORDS]) -> Sent
    ensures { (result ≡ send_answer losses.old) × (losses.new ≡ send_after losses.old) }
{
    if let Err(refusal) = check_send(losses) {
        return Sent::from(refusal);
    }
    let number = losses[AT_NEXT];
    let i = (number / 64 % 16) as usize;
    let k = number % 64;
    let acked = losses[i];
    let lost = losses[AT_LOST + i];
    let acked_before = losses[AT_ACKED_BEFORE];
    let lost_before = losses[AT_LOST_BEFORE];
    losses[i] = cleared(acked, k);
    losses[AT_LOST + i] = cleared(lost, k);
    losses[AT_ACKED_BEFORE] = acked_before + (acked >> k) % 2;
    losses[AT_LOST_BEFORE] = lost_before + (lost >> k) % 2;
    losses[AT_NEXT] = number + 1;
    Sent { result: 0, number }
}
