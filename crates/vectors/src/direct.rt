// Calls that the receiver and the replay program make only where they cannot go wrong: what they answer elsewhere is shown here.
use crate::show;
use std::io;

// Two places, and the lower one again; the window's first word says which are marked.
fn marked_twice(rt: &impl Print) -> io::Result<()> {
    let mut words = [0u64; 16];
    window::mark(&mut words, 5);
    window::mark(&mut words, 6);
    window::mark(&mut words, 5);
    println!(rt; "mark 5, 6 and 5 again: the first word is {}", words[0])
}

// The places 0 to 4 are marked: which is the first missing one below `to`.
fn first_missing(rt: &impl Print, to: u64) -> io::Result<()> {
    let mut words = [0u64; 16];
    words[0] = 31;
    print!(rt; "first_missing from 0 to {to}")?;
    match window::first_missing(&words, 0, to) {
        Some(place) => println!(rt; ": place {place}"),
        None => println!(rt; ": nothing"),
    }
}

fn put_line(rt: &impl Print, buf: &mut [u8]) -> io::Result<()> {
    print!(rt; "put_line 0 0 3, room {}", buf.len())?;
    let answer = events::put_line(buf, 0, 0, 0, 3);
    show::put(rt, answer, buf)
}

fn put_line_in(rt: &impl Print, room: usize) -> io::Result<()> {
    let mut buf = [0xeeu8; 9];
    let n = room.min(buf.len());
    put_line(rt, &mut buf[..n])
}

// The window's searches and marks, and the line of the replay program, at their ends.
pub fn at_the_ends(rt: &impl Print) -> io::Result<()> {
    println!(rt;
        "\nA place is marked once; a search ends below its end; a line fits whole or not at all"
    )?;
    marked_twice(rt)?;
    first_missing(rt, 5)?;
    first_missing(rt, 6)?;
    put_line_in(rt, 5)?;
    put_line_in(rt, 6)?;
    put_line_in(rt, 7)
}
