// A receiver's log from its opening on: each kind of call, accepted, stale and refused, and a call that has no room for its line.
// What it must write stands in the file stdout, which was written from the format and the papers and not from this program.

#![tactic(auto)]

use call_log::{Call, logged};
use ecn::{Kind, Mark};
use receiver::{Millis, Receiver};
use seen::Micros;
use std::io;

// The first bytes of a line; where it has none, this is said.
fn print(rt: &impl Print, line: &[u8], end: usize) -> io::Result<()> {
    if end == 0 {
        println!(rt; "no line")?;
    }
    if end <= line.len() {
        rt.write_all(&line[..end])?;
    }
    Ok(())
}

// The call and its line.
fn show(
    rt: &impl Print,
    receiver: Receiver,
    time: u64,
    call: Call,
    frame: &mut [u8],
    line: &mut [u8],
) -> io::Result<Receiver> {
    let noted = logged(receiver, Micros(time), call, frame, line);
    print(rt, line, noted.line)?;
    Ok(noted.next)
}

fn note(rt: &impl Print, receiver: Receiver, time: u64, call: Call) -> io::Result<Receiver> {
    let mut frame = [0u8; 1066];
    let mut line = [46u8; 2652];
    show(rt, receiver, time, call, &mut frame, &mut line)
}

fn packet(
    rt: &impl Print,
    receiver: Receiver,
    time: u64,
    number: u64,
    eliciting: bool,
    mark: Mark,
) -> io::Result<Receiver> {
    let call = Call::Packet {
        number,
        eliciting,
        mark,
    };
    note(rt, receiver, time, call)
}

fn threshold(
    rt: &impl Print,
    receiver: Receiver,
    time: u64,
    sequence: u64,
    most: u64,
    delay: u64,
    reordering: u64,
) -> io::Result<Receiver> {
    let call = Call::Threshold {
        sequence,
        threshold: most,
        delay: Micros(delay),
        reordering,
    };
    note(rt, receiver, time, call)
}

fn open(
    rt: &impl Print,
    receiver: Receiver,
    time: u64,
    most: u64,
    reordering: u64,
) -> io::Result<Receiver> {
    let call = Call::Open {
        threshold: most,
        reordering,
        maximum: Millis(25),
        minimum: Micros(1000),
    };
    note(rt, receiver, time, call)
}

fn write(
    rt: &impl Print,
    receiver: Receiver,
    time: u64,
    kind: Kind,
    room: u64,
) -> io::Result<Receiver> {
    let call = Call::Write { kind, room };
    note(rt, receiver, time, call)
}

fn confirm(rt: &impl Print, receiver: Receiver, time: u64, largest: u64) -> io::Result<Receiver> {
    let call = Call::Confirm { largest };
    note(rt, receiver, time, call)
}

fn first_calls(rt: &impl Print, receiver: Receiver) -> io::Result<Receiver> {
    let a = open(rt, receiver, 0, 1000, 3)?;
    let b = note(rt, a, 500, Call::Timer)?;
    let c = note(rt, b, 600, Call::Immediate)?;
    let d = packet(rt, c, 1000, 0, true, Mark::None)?;
    packet(rt, d, 2000, 9, false, Mark::Ect1)
}

fn frames(rt: &impl Print, receiver: Receiver) -> io::Result<Receiver> {
    let a = threshold(rt, receiver, 2500, 5, 2, 5000, 3)?;
    let b = threshold(rt, a, 2600, 4, 1, 25000, 0)?;
    threshold(rt, b, 2700, 6, 2, 16384000, 3)
}

fn congestion(rt: &impl Print, receiver: Receiver) -> io::Result<Receiver> {
    let a = packet(rt, receiver, 3000, 3, true, Mark::Ce)?;
    let b = packet(rt, a, 3100, 3, true, Mark::Ect0)?;
    note(rt, b, 9000, Call::Timer)
}

fn acknowledged(rt: &impl Print, receiver: Receiver) -> io::Result<Receiver> {
    let a = write(rt, receiver, 9000, Kind::Plain, 1200)?;
    let b = write(rt, a, 9100, Kind::Counts, 5)?;
    let c = write(rt, b, 9100, Kind::Counts, 2000)?;
    let d = confirm(rt, c, 9200, 12)?;
    confirm(rt, d, 9300, 3)
}

fn late_clocks(rt: &impl Print, receiver: Receiver) -> io::Result<Receiver> {
    let a = note(rt, receiver, 4611686018427387904, Call::Timer)?;
    let b = note(rt, a, 4611686018427387904, Call::Immediate)?;
    packet(rt, b, 10000, 2000, true, Mark::None)
}

// A line of 225 bytes. Where it has no room nothing happens, so the packet is accepted the next time.
fn no_room(rt: &impl Print, receiver: Receiver) -> io::Result<Receiver> {
    let call = Call::Packet {
        number: 2001,
        eliciting: true,
        mark: Mark::None,
    };
    let mut frame = [0u8; 1];
    let mut short = [46u8; 224];
    let mut enough = [46u8; 225];
    let a = show(rt, receiver, 10100, call, &mut frame, &mut short)?;
    show(rt, a, 10100, call, &mut frame, &mut enough)
}

fn main(rt: HostRuntime) -> io::Result<()> {
    let opened = Receiver::open(1, 1, Millis(25), Micros(1000));
    let a = first_calls(&rt, opened.next)?;
    let b = frames(&rt, a)?;
    let c = congestion(&rt, b)?;
    let d = acknowledged(&rt, c)?;
    let e = late_clocks(&rt, d)?;
    let f = no_room(&rt, e)?;
    open(&rt, f, 11000, 4611686018427387904, 1)?;
    Ok(())
}
