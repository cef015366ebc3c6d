// The published examples of RFC 9000 and the unmarked ones of document 01, on numbers, frames, thresholds and confirmations, run and written out line by line.
// Carries "the rest and RFC 9000's published vectors run in a test program" of document 01, "Settled examples".
// What it must write stands in the file stdout, which was written from the papers and not from this program.

#![tactic(auto)]

mod calls;
mod direct;
mod show;
mod types;

use calls::Reader;
use ecn::Mark;
use receiver::{Millis, Receiver};
use seen::Micros;
use std::io;

fn head(rt: &impl Print) -> io::Result<()> {
    print!(rt; "Each line: the call, what it is given, what it answers. ")?;
    println!(rt; "Before a call every byte of a buffer is ee, every number of a slice 99.")
}

fn published_read(rt: &impl Print) -> io::Result<()> {
    println!(rt; "\nRFC 9000, appendix A.1: numbers are read, cut at every byte")?;
    calls::read_number(rt, b"")?;
    calls::cuts(rt, Reader::Number, b"\xc2\x19\x7c\x5e\xff\x14\xe8\x8c")?;
    calls::cuts(rt, Reader::Number, b"\x9d\x7f\x3e\x7d")?;
    calls::cuts(rt, Reader::Number, b"\x7b\xbd")?;
    calls::cuts(rt, Reader::Number, b"\x25")?;
    calls::cuts(rt, Reader::Number, b"\x40\x25")
}

fn published_written(rt: &impl Print) -> io::Result<()> {
    println!(rt; "\nRFC 9000, appendix A.1: the same numbers are written, in shortest form")?;
    calls::put_number_in(rt, 151288809941952652, 7)?;
    calls::put_number_in(rt, 151288809941952652, 8)?;
    calls::put_number_in(rt, 151288809941952652, 9)?;
    calls::put_number_in(rt, 494878333, 3)?;
    calls::put_number_in(rt, 494878333, 4)?;
    calls::put_number_in(rt, 494878333, 5)?;
    calls::put_number_in(rt, 15293, 1)?;
    calls::put_number_in(rt, 15293, 2)?;
    calls::put_number_in(rt, 15293, 3)?;
    calls::put_number_in(rt, 37, 0)?;
    calls::put_number_in(rt, 37, 1)?;
    calls::put_number_in(rt, 37, 2)
}

fn widths(rt: &impl Print) -> io::Result<()> {
    println!(rt; "\nP2 and P3, and the ends of the four lengths")?;
    calls::width(rt, 0)?;
    calls::width(rt, 63)?;
    calls::width(rt, 64)?;
    calls::width(rt, 16383)?;
    calls::width(rt, 16384)?;
    calls::width(rt, 1073741823)?;
    calls::width(rt, 1073741824)?;
    calls::width(rt, 4611686018427387903)?;
    calls::width(rt, 4611686018427387904)?;
    calls::width(rt, 18446744073709551615)
}

fn ends_written(rt: &impl Print) -> io::Result<()> {
    println!(rt; "\nThe ends of the four lengths are written; 5 comes before 9")?;
    calls::put_number_in(rt, 63, 9)?;
    calls::put_number_in(rt, 64, 9)?;
    calls::put_number_in(rt, 16383, 9)?;
    calls::put_number_in(rt, 16384, 9)?;
    calls::put_number_in(rt, 1073741823, 9)?;
    calls::put_number_in(rt, 1073741824, 9)?;
    calls::put_number_in(rt, 4611686018427387903, 9)?;
    calls::put_number_in(rt, 4611686018427387904, 9)?;
    calls::put_number_in(rt, 4611686018427387904, 0)
}

fn numbers_written(rt: &impl Print) -> io::Result<()> {
    println!(rt; "\nNumbers one after the other: all of them or none")?;
    calls::put_two_in(rt, 37, 15293, 2)?;
    calls::put_two_in(rt, 37, 15293, 3)?;
    calls::put_two_in(rt, 37, 15293, 4)?;
    calls::put_two_in(rt, 37, 4611686018427387904, 9)?;
    calls::put_two_in(rt, 37, 4611686018427387904, 0)?;
    calls::length_of_two(rt, 37, 15293)?;
    calls::length_of_two(rt, 37, 4611686018427387904)
}

fn fixed_read(rt: &impl Print) -> io::Result<()> {
    println!(rt; "\nFixed fields, high byte first, are read, cut at every byte")?;
    calls::cuts(rt, Reader::Fixed4, b"\x00\x00\x61\xa8")?;
    calls::cuts(rt, Reader::Fixed8, b"\xc2\x19\x7c\x5e\xff\x14\xe8\x8c")
}

fn fixed_written(rt: &impl Print) -> io::Result<()> {
    println!(rt; "\nFixed fields are written")?;
    calls::put_fixed4_in(rt, 25000, 3)?;
    calls::put_fixed4_in(rt, 25000, 4)?;
    calls::put_fixed4_in(rt, 25000, 5)?;
    calls::put_fixed8_in(rt, 13986346865224116364, 7)?;
    calls::put_fixed8_in(rt, 13986346865224116364, 8)?;
    calls::put_fixed8_in(rt, 13986346865224116364, 9)
}

fn frequency_read(rt: &impl Print) -> io::Result<()> {
    println!(rt; "\nP1: ACK_FREQUENCY is read, cut at every byte")?;
    calls::cuts(
        rt,
        Reader::Frequency,
        b"\x40\xaf\x05\x0a\x80\x00\x61\xa8\x03",
    )?;
    print!(rt; "\nACK_FREQUENCY: a longer form of a number, bytes behind the frame, ")?;
    println!(rt; "a delay that is not judged here")?;
    calls::read_frequency(rt, b"\x40\xaf\x40\x05\x0a\x80\x00\x61\xa8\x03")?;
    calls::read_frequency(rt, b"\x40\xaf\x05\x0a\x80\x00\x61\xa8\x03\x1f")?;
    calls::read_frequency(rt, b"\x40\xaf\x05\x0a\x80\xfa\x00\x00\x03")
}

fn immediate_read(rt: &impl Print) -> io::Result<()> {
    print!(rt; "\nIMMEDIATE_ACK is read: 40 1f is cut at every byte, ")?;
    println!(rt; "bytes behind the frame are ignored")?;
    calls::cuts(rt, Reader::Immediate, b"\x40\x1f")?;
    calls::read_immediate(rt, b"\x1f")?;
    calls::read_immediate(rt, b"\x1f\x02")
}

fn ack_read(rt: &impl Print) -> io::Result<()> {
    println!(rt; "\nP6's bytes: ACK is read, cut at every byte")?;
    calls::cuts(rt, Reader::Ack, b"\x02\x05\x00\x01\x02\x00\x01")?;
    println!(rt; "\nP6's bytes in less room: all the ranges or none")?;
    let mut slice1 = [99u64; 1];
    let mut slice3 = [99u64; 3];
    let mut slice4 = [99u64; 4];
    calls::read_ack0(rt, b"\x02\x05\x00\x01\x02\x00\x01")?;
    calls::read_ack(rt, b"\x02\x05\x00\x01\x02\x00\x01", &mut slice1)?;
    calls::read_ack(rt, b"\x02\x05\x00\x01\x02\x00\x01", &mut slice3)?;
    calls::read_ack(rt, b"\x02\x05\x00\x01\x02\x00\x01", &mut slice4)
}

fn ack_below_zero(rt: &impl Print) -> io::Result<()> {
    println!(rt; "\nA gap below number 0 gives 14 though the length behind it is cut")?;
    calls::cuts(rt, Reader::Ack, b"\x02\x05\x00\x01\x04\x02")?;
    println!(rt; "\nACK at number 0 and below it, and bytes behind the frame")?;
    calls::read_ack5(rt, b"\x02\x05\x00\x00\x05\x02")?;
    calls::read_ack5(rt, b"\x02\x05\x00\x00\x06")?;
    calls::read_ack5(rt, b"\x02\x05\x00\x01\x02\x01\x00")?;
    calls::read_ack5(rt, b"\x02\x05\x00\x01\x02\x01\x01")?;
    calls::read_ack5(rt, b"\x02\x05\x00\x01\x02\x02")
}

fn ack_before_room(rt: &impl Print) -> io::Result<()> {
    println!(rt; "\nThe whole frame is checked before the room: a range count of 2^62 - 1")?;
    calls::read_ack0(rt, b"\x02\x05\x00\x01\x02")?;
    calls::read_ack0(rt, b"\x02\x05\x00\x01\x04\x02")?;
    calls::read_ack0(rt, b"\x02\x05\x00\x00\x06")?;
    calls::read_ack0(rt, b"\x02\x05\x00\xff\xff\xff\xff\xff\xff\xff\xff\x05")?;
    calls::read_ack0(rt, b"\x02\x05\x00\xff\xff\xff\xff\xff\xff\xff\xff\x05\x00")
}

// 02, No. 2: type 03 is the frame of type 02 with the counts ECT(0), ECT(1), CE after it.
fn ack_counts(rt: &impl Print) -> io::Result<()> {
    println!(rt;
        "\nACK of type 03 is read, with counts of one, two and four bytes, cut at every byte"
    )?;
    calls::cuts(
        rt,
        Reader::Ack,
        b"\x03\x05\x00\x01\x02\x00\x01\x05\x40\x40\x80\x00\x40\x00",
    )?;
    println!(rt;
        "\nA count of eight bytes, one in a longer form; 2 inside the counts comes before 9"
    )?;
    calls::read_ack5(
        rt,
        b"\x03\x05\x00\x00\x05\xff\xff\xff\xff\xff\xff\xff\xff\x00\x40\x07",
    )?;
    calls::read_ack0(rt, b"\x03\x05\x00\x00\x05\x01\x02\x03")?;
    calls::read_ack0(rt, b"\x03\x05\x00\x00\x05\x01\x02")
}

fn frames_written(rt: &impl Print) -> io::Result<()> {
    println!(rt; "\nACK_FREQUENCY and IMMEDIATE_ACK are written; 5 comes before 9")?;
    calls::put_frequency_in(rt, 5, 10, 25000, 3, 8)?;
    calls::put_frequency_in(rt, 5, 10, 25000, 3, 9)?;
    calls::put_frequency_in(rt, 5, 10, 25000, 3, 10)?;
    calls::put_frequency_in(rt, 4611686018427387904, 10, 25000, 3, 10)?;
    calls::put_frequency_in(rt, 5, 4611686018427387904, 25000, 3, 10)?;
    calls::put_frequency_in(rt, 5, 10, 4611686018427387904, 3, 10)?;
    calls::put_frequency_in(rt, 5, 10, 25000, 4611686018427387904, 0)?;
    calls::put_immediate_in(rt, 0)?;
    calls::put_immediate_in(rt, 1)?;
    calls::put_immediate_in(rt, 2)
}

// What a frame is answered and what is then in force are printed side by side: they must agree.
fn thresholds_heard(rt: &impl Print) -> io::Result<()> {
    print!(rt; "\nACK_FREQUENCY is heard: delay 16383999 passes, 16384000 gives 4; ")?;
    println!(rt; "the second frame with sequence 5 is stale, and 4 comes before that")?;
    let opened = Receiver::open(1, 1, Millis(25), Micros(1000));
    let first = calls::threshold(rt, opened.next, 5, 10, 16383999, 3)?;
    let second = calls::threshold(rt, first, 5, 2, 25000, 1)?;
    let third = calls::threshold(rt, second, 5, 2, 16384000, 1)?;
    let fourth = calls::threshold(rt, third, 6, 2, 16384000, 1)?;
    calls::threshold(rt, fourth, 6, 2, 25000, 1)?;
    Ok(())
}

// 02, No. 1: a refused frame agrees nothing, and the memory of the last mark runs on through the first accepted one.
fn congestion(rt: &impl Print) -> io::Result<()> {
    print!(rt;
        "\nUntil the first accepted frame each CE packet is due, then the first of a run; "
    )?;
    println!(rt; "each packet is followed by a write")?;
    let opened = Receiver::open(1000, 0, Millis(25), Micros(1000));
    let first = calls::packet(rt, opened.next, 0, true)?;
    let second = calls::packet(rt, first, 1, true)?;
    let refused = calls::threshold(rt, second, 5, 1000, 999, 0)?;
    let third = calls::packet(rt, refused, 2, true)?;
    let agreed = calls::threshold(rt, third, 5, 1000, 25000, 0)?;
    let fourth = calls::packet(rt, agreed, 3, true)?;
    let stale = calls::threshold(rt, fourth, 5, 1000, 25000, 0)?;
    let fifth = calls::packet(rt, stale, 4, true)?;
    let ended = calls::packet(rt, fifth, 5, false)?;
    let begun = calls::packet(rt, ended, 6, true)?;
    calls::packet(rt, begun, 7, true)?;
    Ok(())
}

// 02, No. 12: what the sender confirmed is reported no more, and number 2, which is missing, is sought no more.
fn confirmations(rt: &impl Print) -> io::Result<()> {
    print!(rt;
        "\nThe floor rises to k + 1, or to L where k is L, and never falls; below it 7 is given; "
    )?;
    println!(rt; "each packet is followed by a write")?;
    let opened = Receiver::open(1000, 3, Millis(25), Micros(1000));
    let large = calls::confirm(rt, opened.next, 4611686018427387904)?;
    let early = calls::confirm(rt, large, 0)?;
    let zero = calls::packet(rt, early, 0, false)?;
    let one = calls::packet(rt, zero, 1, false)?;
    let three = calls::packet(rt, one, 3, false)?;
    let four = calls::packet(rt, three, 4, false)?;
    let five = calls::packet(rt, four, 5, false)?;
    let above = calls::confirm(rt, five, 6)?;
    let first = calls::confirm(rt, above, 1)?;
    let below = calls::packet(rt, first, 1, false)?;
    let second = calls::confirm(rt, below, 3)?;
    let received = calls::packet(rt, second, 3, false)?;
    let missing = calls::packet(rt, received, 2, false)?;
    let again = calls::packet(rt, missing, 4, false)?;
    let smaller = calls::confirm(rt, again, 0)?;
    let own = calls::confirm(rt, smaller, 5)?;
    let later = calls::packet(rt, own, 7, false)?;
    calls::confirm(rt, later, 7)?;
    Ok(())
}

// 02, No. 2: both kinds of packets count, a refused one does not, and the counts take room.
fn counts_written(rt: &impl Print) -> io::Result<()> {
    println!(rt;
        "\nPackets marked ECT(0), ECT(1), CE and not at all; an ACK of type 03 in each room"
    )?;
    let opened = Receiver::open(1000, 3, Millis(25), Micros(1000));
    let zero = calls::marked(rt, opened.next, 0, true, Mark::Ect0)?;
    let one = calls::marked(rt, zero, 1, false, Mark::Ect0)?;
    let again = calls::marked(rt, one, 1, true, Mark::Ce)?;
    let three = calls::marked(rt, again, 3, true, Mark::Ce)?;
    let four = calls::marked(rt, three, 4, true, Mark::Ect1)?;
    let five = calls::marked(rt, four, 5, true, Mark::None)?;
    calls::write_counts_in(rt, five, 7)?;
    calls::write_counts_in(rt, five, 8)?;
    calls::write_counts_in(rt, five, 9)?;
    calls::write_counts_in(rt, five, 10)?;
    calls::write_counts_in(rt, five, 12)
}

fn main(rt: HostRuntime) -> io::Result<()> {
    head(&rt)?;
    published_read(&rt)?;
    published_written(&rt)?;
    widths(&rt)?;
    ends_written(&rt)?;
    numbers_written(&rt)?;
    fixed_read(&rt)?;
    fixed_written(&rt)?;
    frequency_read(&rt)?;
    immediate_read(&rt)?;
    types::to_every_reader(&rt)?;
    ack_read(&rt)?;
    ack_below_zero(&rt)?;
    ack_before_room(&rt)?;
    calls::ack_checked(&rt)?;
    ack_counts(&rt)?;
    frames_written(&rt)?;
    direct::at_the_ends(&rt)?;
    thresholds_heard(&rt)?;
    congestion(&rt)?;
    confirmations(&rt)?;
    counts_written(&rt)
}
