// How a line is written: the call, the bytes or numbers that it is given, and what it answers.
use frames::{Ack, Checked, Counts, Frequency};
use receiver::{Agreed, Verdict};
use std::io;
use wire::{Fixed, Number, Refusal};

// The bytes of s, a blank before each.
pub fn bytes(rt: &impl Print, s: &[u8]) -> io::Result<()> {
    if s.is_empty() {
        print!(rt; " (empty)")?;
    }
    for x in s {
        print!(rt; " {x:02x}")?;
    }
    Ok(())
}

// The numbers of s, a blank before each.
pub fn numbers(rt: &impl Print, s: &[u64]) -> io::Result<()> {
    if s.is_empty() {
        print!(rt; " (empty)")?;
    }
    for n in s {
        print!(rt; " {n}")?;
    }
    Ok(())
}

// What is said in place of an answer.
fn refused(rt: &impl Print, refusal: Refusal) -> io::Result<()> {
    print!(rt; ": refused {}", refusal.number())
}

// A value that was read, and how many bytes it took.
fn value_found(rt: &impl Print, value: u64, length: usize) -> io::Result<()> {
    print!(rt; ": value {value}, length {length}")
}

// What a reader of fixed fields answers.
pub fn fixed(rt: &impl Print, answer: Result<Fixed, Refusal>) -> io::Result<()> {
    match answer {
        Ok(Fixed { value, next }) => value_found(rt, value, next)?,
        Err(refusal) => refused(rt, refusal)?,
    }
    println!(rt; "")
}

// What the reader of numbers answers.
pub fn number(rt: &impl Print, answer: Result<Number, Refusal>) -> io::Result<()> {
    match answer {
        Ok(
            Number {
                value,
                next,
                shortest,
            },
        ) => {
            value_found(rt, value, next)?;
            if !shortest {
                print!(rt; ", not the shortest form")?;
            }
        }
        Err(refusal) => refused(rt, refusal)?,
    }
    println!(rt; "")
}

// What a writer answers, and the buffer that it leaves.
pub fn put(rt: &impl Print, answer: Result<usize, Refusal>, buf: &[u8]) -> io::Result<()> {
    match answer {
        Ok(next) => print!(rt; ": length {next}")?,
        Err(refusal) => refused(rt, refusal)?,
    }
    print!(rt; "; buffer")?;
    bytes(rt, buf)?;
    println!(rt; "")
}

// How many bytes numbers take together, or a frame that was read.
pub fn length(rt: &impl Print, answer: Result<usize, Refusal>) -> io::Result<()> {
    match answer {
        Ok(total) => print!(rt; ": length {total}")?,
        Err(refusal) => refused(rt, refusal)?,
    }
    println!(rt; "")
}

// What the reader of ACK_FREQUENCY answers.
pub fn frequency(rt: &impl Print, answer: Result<Frequency, Refusal>) -> io::Result<()> {
    match answer {
        Ok(
            Frequency {
                sequence,
                threshold,
                delay,
                reordering,
                used,
            },
        ) => {
            print!(rt; ": sequence {sequence}, threshold {threshold}, delay {delay}")?;
            print!(rt; ", reordering {reordering}, length {used}")?;
        }
        Err(refusal) => refused(rt, refusal)?,
    }
    println!(rt; "")
}

// The counts of an ACK frame of type 03: ECT(0), ECT(1), CE.
fn counts(rt: &impl Print, tail: Option<Counts>) -> io::Result<()> {
    match tail {
        None => Ok(()),
        Some(Counts { ect0, ect1, ce }) => print!(rt; ", counts {ect0} {ect1} {ce}"),
    }
}

// What the ACK reader answers, and the slice that it leaves.
pub fn ack(rt: &impl Print, answer: Result<Ack, Refusal>, slice: &[u64]) -> io::Result<()> {
    match answer {
        Ok(
            Ack {
                largest,
                delay,
                ranges,
                used,
                tail,
            },
        ) => {
            print!(rt; ": largest {largest}, delay {delay}, ranges {ranges}, length {used}")?;
            counts(rt, tail)?;
        }
        Err(refusal) => refused(rt, refusal)?,
    }
    print!(rt; "; slice")?;
    numbers(rt, slice)?;
    println!(rt; "")
}

// What the check of an ACK frame answers: where its first range stands, and how many come after it.
pub fn checked(rt: &impl Print, answer: Result<Checked, Refusal>) -> io::Result<()> {
    match answer {
        Ok(
            Checked {
                largest,
                delay,
                at,
                count: more,
                used,
                tail,
            },
        ) => {
            print!(rt; ": largest {largest}, delay {delay}, first range at {at}")?;
            print!(rt; ", ranges after it {more}, length {used}")?;
            counts(rt, tail)?;
        }
        Err(refusal) => refused(rt, refusal)?,
    }
    println!(rt; "")
}

// What a threshold frame is answered, and the values in force after it.
pub fn verdict(rt: &impl Print, answer: Verdict, agreed: Agreed) -> io::Result<()> {
    match answer {
        Verdict::Accepted => print!(rt; ": accepted")?,
        Verdict::Stale => print!(rt; ": stale")?,
        Verdict::Refused(n) => print!(rt; ": refused {n}")?,
    }
    let delay = agreed.delay.0;
    println!(rt;
        "; in force {} {delay} {}",
        agreed.threshold, agreed.reordering
    )
}
