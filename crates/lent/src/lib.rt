// The calls of which a host lends the record: it is updated there (02, No. 14).
// Each copies the record out, calls the method by value and stores the next record, so it answers what that call answers, refusals included.
// They stand in an archive crate of their own: beside the exports by value both would be compiled slower.

#![tactic(auto)]

ghost use Rattle.std.specs.Prelude.{◌≡◌};
ghost use Rattle.ecn.specs.Given.{mark_of, kind_of};
ghost use Rattle.receiver.specs.Given.{micros};
ghost use Rattle.receiver.specs.Packet.{packet_call};
ghost use Rattle.receiver.specs.Calls.{timer_call};
ghost use Rattle.receiver.specs.Write.{write_answer, write_bytes};
ghost use Rattle.lent.specs.Lent.{wrote_lent};

use ecn::{Kind, Mark};
use receiver::Receiver;
use seen::Micros;

// What a write answers where the record is lent.
#[repr(C)]
#[derive(Clone, Copy)]
pub struct WroteLent {
    // This is 0 for accepted, or the paper's refusal number.
    pub result: u64,
    // The frame takes so many bytes at the start of the lent buffer, 0 where it was refused.
    pub length: u64,
}

// A packet arrives.
#[unsafe(no_mangle)]
pub extern "C" fn lumbixet_packet_lent(
    receiver: &mut Receiver,
    number: u64,
    time: u64,
    eliciting: bool,
    ecn: u64,
) -> u64
    ensures { (result ≡ (packet_call receiver.old number (micros time) eliciting (mark_of ecn)).result)
        × (receiver.new ≡ (packet_call receiver.old number (micros time) eliciting (mark_of ecn)).next) }
{
    let mark = Mark::from(ecn);
    let answer = Receiver::packet(*receiver, number, Micros(time), eliciting, mark);
    *receiver = answer.next;
    answer.result
}

// The timer is looked at.
#[unsafe(no_mangle)]
pub extern "C" fn lumbixet_timer_lent(receiver: &mut Receiver, time: u64) -> u64
    ensures { (result ≡ (timer_call receiver.old (micros time)).result)
        × (receiver.new ≡ (timer_call receiver.old (micros time)).next) }
{
    let answer = Receiver::timer(*receiver, Micros(time));
    *receiver = answer.next;
    answer.result
}

// Writes an ACK frame at the start of the buffer: of type 03, with the counts, or of type 02.
#[unsafe(no_mangle)]
pub extern "C" fn lumbixet_write_lent(
    receiver: &mut Receiver,
    time: u64,
    counts: bool,
    buffer: &mut [u8],
) -> WroteLent
    ensures { (result ≡ wrote_lent (write_answer receiver.old (micros time) (kind_of counts) buffer.old))
        × (receiver.new ≡ (write_answer receiver.old (micros time) (kind_of counts) buffer.old).next)
        × (buffer.new ≡ write_bytes receiver.old (micros time) (kind_of counts) buffer.old) }
{
    let kind = Kind::from(counts);
    let wrote = Receiver::write(*receiver, Micros(time), kind, buffer);
    *receiver = wrote.next;
    WroteLent {
        result: wrote.result,
        length: wrote.length,
    }
}
