// Types of frames, whole, cut and in longer forms: each of them to every reader.
use crate::calls;
use std::io;

// The same bytes to every reader of a frame.
fn every_reader(rt: &impl Print, s: &[u8]) -> io::Result<()> {
    calls::read_frequency(rt, s)?;
    calls::read_immediate(rt, s)?;
    calls::read_ack5(rt, s)
}

pub fn to_every_reader(rt: &impl Print) -> io::Result<()> {
    println!(rt; "\nFrame types: each of these to every reader")?;
    every_reader(rt, b"")?;
    every_reader(rt, b"\x40")?;
    every_reader(rt, b"\x40\x1f")?;
    every_reader(rt, b"\x40\x02")?;
    every_reader(rt, b"\x80\x00\x00\xaf")?;
    every_reader(rt, b"\xaf")?;
    every_reader(rt, b"\x03")?;
    every_reader(rt, b"\x40\x03")
}
