// For the archive of crate host: the sending side's loss list under its C names.
// A host lends the record, which is large, and it is updated there.

#![tactic(auto)]

ghost use Rattle.std.specs.Prelude.{◌≡◌, length};
ghost use Rattle.sent.specs.Calls.{opened, send_answer, send_after};
ghost use Rattle.sent.specs.Heard.{hear, IsHeard};

use sent::{Reply, Sent, WORDS};

// Opens a loss list: nothing was sent.
#[unsafe(no_mangle)]
pub extern "C" fn lumbixet_losses_open(losses: &mut [u64; WORDS])
    ensures { losses.new ≡ opened }
{
    sent::open(losses)
}

// Sends the next number.
#[unsafe(no_mangle)]
pub extern "C" fn lumbixet_losses_send(losses: &mut [u64; WORDS]) -> Sent
    ensures { (result ≡ send_answer losses.old) × (losses.new ≡ send_after losses.old) }
{
    sent::send(losses)
}

// Hears an ACK frame, and lists what became acknowledged and what became lost.
#[unsafe(no_mangle)]
pub extern "C" fn lumbixet_losses_heard(
    losses: &mut [u64; WORDS],
    frame: &[u8],
    acked: &mut [u64],
    lost: &mut [u64],
) -> Reply
    ensures { IsHeard (hear losses.old frame.now (length acked.old) (length lost.old)) acked.old lost.old result losses.new acked.new lost.new }
{
    sent::heard(losses, frame, acked, lost)
}
