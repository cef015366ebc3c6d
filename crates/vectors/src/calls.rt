// One line for each call: what it is given, and what it answers.
// A room is at most the buffer that it is taken from.
use crate::show;
use ecn::{Kind, Mark};
use receiver::Receiver;
use seen::Micros;
use std::io;

// ---- reading

// The readers whose bytes are cut.
#[derive(Clone, Copy)]
pub enum Reader {
    Number,
    Fixed4,
    Fixed8,
    Frequency,
    Immediate,
    Ack,
    Check,
}

pub fn read_number(rt: &impl Print, s: &[u8]) -> io::Result<()> {
    print!(rt; "read_number")?;
    show::bytes(rt, s)?;
    show::number(rt, wire::read_number(s, 0))
}

fn read_fixed4(rt: &impl Print, s: &[u8]) -> io::Result<()> {
    print!(rt; "read_fixed4")?;
    show::bytes(rt, s)?;
    show::fixed(rt, wire::read_fixed4(s, 0))
}

fn read_fixed8(rt: &impl Print, s: &[u8]) -> io::Result<()> {
    print!(rt; "read_fixed8")?;
    show::bytes(rt, s)?;
    show::fixed(rt, wire::read_fixed8(s, 0))
}

pub fn read_frequency(rt: &impl Print, s: &[u8]) -> io::Result<()> {
    print!(rt; "read_frequency")?;
    show::bytes(rt, s)?;
    show::frequency(rt, frames::read_frequency(s))
}

pub fn read_immediate(rt: &impl Print, s: &[u8]) -> io::Result<()> {
    print!(rt; "read_immediate")?;
    show::bytes(rt, s)?;
    show::length(rt, frames::read_immediate(s))
}

// An ACK frame whose ranges go to the lent slice.
pub fn read_ack(rt: &impl Print, s: &[u8], slice: &mut [u64]) -> io::Result<()> {
    print!(rt; "read_ack")?;
    show::bytes(rt, s)?;
    print!(rt; ", room {}", slice.len())?;
    let answer = frames::read_ack(s, slice);
    show::ack(rt, answer, slice)
}

// An ACK frame, and room for two ranges and half of a third.
pub fn read_ack5(rt: &impl Print, s: &[u8]) -> io::Result<()> {
    let mut slice = [99u64; 5];
    read_ack(rt, s, &mut slice)
}

// An ACK frame, and no room.
pub fn read_ack0(rt: &impl Print, s: &[u8]) -> io::Result<()> {
    let mut slice = [99u64; 0];
    read_ack(rt, s, &mut slice)
}

fn check_ack(rt: &impl Print, s: &[u8]) -> io::Result<()> {
    print!(rt; "check_ack")?;
    show::bytes(rt, s)?;
    show::checked(rt, frames::check_ack(s))
}

fn read(rt: &impl Print, reader: Reader, s: &[u8]) -> io::Result<()> {
    match reader {
        Reader::Number => read_number(rt, s),
        Reader::Fixed4 => read_fixed4(rt, s),
        Reader::Fixed8 => read_fixed8(rt, s),
        Reader::Frequency => read_frequency(rt, s),
        Reader::Immediate => read_immediate(rt, s),
        Reader::Ack => read_ack5(rt, s),
        Reader::Check => check_ack(rt, s),
    }
}

// A reader on the first byte of s, on the first two, and so on to all of s.
pub fn cuts(rt: &impl Print, reader: Reader, s: &[u8]) -> io::Result<()> {
    for n in 0..s.len() {
        read(rt, reader, &s[..n + 1])?;
    }
    Ok(())
}

pub fn ack_checked(rt: &impl Print) -> io::Result<()> {
    println!(rt; "\nACK is checked: P6's bytes cut at every byte, below 0, a longer type, counts")?;
    cuts(rt, Reader::Check, b"\x02\x05\x00\x01\x02\x00\x01")?;
    check_ack(rt, b"\x02\x05\x00\x00\x06")?;
    check_ack(rt, b"\x40\x02")?;
    check_ack(rt, b"\x03\x05\x00\x00\x05\x01\x02\x03")
}

// ---- writing

pub fn width(rt: &impl Print, v: u64) -> io::Result<()> {
    println!(rt;
        "width {v}: by zeros {}, by table {}",
        wire::width(v),
        wire::width_by_table(v)
    )
}

fn put_number(rt: &impl Print, v: u64, buf: &mut [u8]) -> io::Result<()> {
    print!(rt; "put_number {v}, room {}", buf.len())?;
    let answer = wire::put_number(buf, 0, v);
    show::put(rt, answer, buf)
}

pub fn put_number_in(rt: &impl Print, v: u64, room: usize) -> io::Result<()> {
    let mut buf = [0xeeu8; 9];
    let n = room.min(buf.len());
    put_number(rt, v, &mut buf[..n])
}

fn put_numbers(rt: &impl Print, values: &[u64], buf: &mut [u8]) -> io::Result<()> {
    print!(rt; "put_numbers")?;
    show::numbers(rt, values)?;
    print!(rt; ", room {}", buf.len())?;
    let answer = wire::put_numbers(buf, 0, values);
    show::put(rt, answer, buf)
}

// Two numbers, one after the other.
pub fn put_two_in(rt: &impl Print, first: u64, second: u64, room: usize) -> io::Result<()> {
    let values = [first, second];
    let mut buf = [0xeeu8; 9];
    let n = room.min(buf.len());
    put_numbers(rt, &values, &mut buf[..n])
}

// How many bytes two numbers take together.
pub fn length_of_two(rt: &impl Print, first: u64, second: u64) -> io::Result<()> {
    let values = [first, second];
    print!(rt; "length_of")?;
    show::numbers(rt, &values)?;
    show::length(rt, wire::length_of(&values))
}

fn put_fixed4(rt: &impl Print, v: u32, buf: &mut [u8]) -> io::Result<()> {
    print!(rt; "put_fixed4 {v}, room {}", buf.len())?;
    let answer = wire::put_fixed4(buf, 0, v);
    show::put(rt, answer, buf)
}

pub fn put_fixed4_in(rt: &impl Print, v: u32, room: usize) -> io::Result<()> {
    let mut buf = [0xeeu8; 5];
    let n = room.min(buf.len());
    put_fixed4(rt, v, &mut buf[..n])
}

fn put_fixed8(rt: &impl Print, v: u64, buf: &mut [u8]) -> io::Result<()> {
    print!(rt; "put_fixed8 {v}, room {}", buf.len())?;
    let answer = wire::put_fixed8(buf, 0, v);
    show::put(rt, answer, buf)
}

pub fn put_fixed8_in(rt: &impl Print, v: u64, room: usize) -> io::Result<()> {
    let mut buf = [0xeeu8; 9];
    let n = room.min(buf.len());
    put_fixed8(rt, v, &mut buf[..n])
}

fn put_frequency(
    rt: &impl Print,
    sequence: u64,
    threshold: u64,
    delay: u64,
    reordering: u64,
    buf: &mut [u8],
) -> io::Result<()> {
    print!(rt; "put_frequency {sequence} {threshold} {delay} {reordering}")?;
    print!(rt; ", room {}", buf.len())?;
    let answer = frames::put_frequency(buf, sequence, threshold, delay, reordering);
    show::put(rt, answer, buf)
}

pub fn put_frequency_in(
    rt: &impl Print,
    sequence: u64,
    threshold: u64,
    delay: u64,
    reordering: u64,
    room: usize,
) -> io::Result<()> {
    let mut buf = [0xeeu8; 10];
    let n = room.min(buf.len());
    put_frequency(rt, sequence, threshold, delay, reordering, &mut buf[..n])
}

fn put_immediate(rt: &impl Print, buf: &mut [u8]) -> io::Result<()> {
    print!(rt; "put_immediate, room {}", buf.len())?;
    let answer = frames::put_immediate(buf);
    show::put(rt, answer, buf)
}

pub fn put_immediate_in(rt: &impl Print, room: usize) -> io::Result<()> {
    let mut buf = [0xeeu8; 2];
    let n = room.min(buf.len());
    put_immediate(rt, &mut buf[..n])
}

// ---- the receiver

// An ACK_FREQUENCY frame's four values, and what is in force after it.
pub fn threshold(
    rt: &impl Print,
    receiver: Receiver,
    sequence: u64,
    threshold: u64,
    delay: u64,
    reordering: u64,
) -> io::Result<Receiver> {
    print!(rt; "threshold {sequence} {threshold} {delay} {reordering}")?;
    let heard = receiver.threshold(sequence, threshold, Micros(delay), reordering);
    show::verdict(rt, heard.verdict, heard.next.agreed)?;
    Ok(heard.next)
}

fn mark_of(ce: bool) -> Mark {
    if ce { Mark::Ce } else { Mark::None }
}

// A packet with that mark at time 0, and the four totals after it.
pub fn marked(
    rt: &impl Print,
    receiver: Receiver,
    number: u64,
    eliciting: bool,
    mark: Mark,
) -> io::Result<Receiver> {
    print!(rt; "packet {number}")?;
    let answer = receiver.packet(number, Micros(0), eliciting, mark);
    let next = answer.next;
    let totals = next.totals;
    println!(rt;
        ": result {}, totals {} {} {} {}",
        answer.result, totals.ect0, totals.ect1, totals.ce, totals.unmarked
    )?;
    Ok(next)
}

fn write_counts(rt: &impl Print, receiver: Receiver, buf: &mut [u8]) -> io::Result<()> {
    print!(rt; "write 03, room {}", buf.len())?;
    let wrote = receiver.write(Micros(0), Kind::Counts, buf);
    print!(rt; ": result {}, length {}", wrote.result, wrote.length)?;
    print!(rt; "; buffer")?;
    show::bytes(rt, buf)?;
    println!(rt; "")
}

// An ACK of type 03 in a room of at most twelve bytes.
pub fn write_counts_in(rt: &impl Print, receiver: Receiver, room: usize) -> io::Result<()> {
    let mut buf = [0xeeu8; 12];
    let n = room.min(buf.len());
    write_counts(rt, receiver, &mut buf[..n])
}

// An ack-eliciting packet at time 0, the cause after it, and then a write.
pub fn packet(rt: &impl Print, receiver: Receiver, number: u64, ce: bool) -> io::Result<Receiver> {
    print!(rt; "packet {number}")?;
    if ce {
        print!(rt; " CE")?;
    }
    let answer = receiver.packet(number, Micros(0), true, mark_of(ce));
    let next = answer.next;
    println!(rt; ": result {}, cause {}", answer.result, next.cause)?;
    let mut room = [0u8; 32];
    let wrote = next.write(Micros(0), Kind::Plain, &mut room);
    Ok(wrote.next)
}

// A confirmation of an ACK with that largest number, the floor after it, and what a write then leaves in seven bytes.
pub fn confirm(rt: &impl Print, receiver: Receiver, largest: u64) -> io::Result<Receiver> {
    print!(rt; "confirm {largest}")?;
    let answer = receiver.confirm(largest);
    let next = answer.next;
    print!(rt; ": result {}, floor {}", answer.result, next.seen.confirmed)?;
    let mut room = [0xeeu8; 7];
    next.write(Micros(0), Kind::Plain, &mut room);
    print!(rt; "; a write leaves")?;
    show::bytes(rt, &room)?;
    println!(rt; "")?;
    Ok(next)
}
