// Totals at the edge, from a start that no file brings: every sum is one below 2^64 - 1, so that each report shows where it stops.
// Each section prints a page: the start; a report that adds 1 to accepted, to total and received and to each status; the same again; a
// report that is too long; one that adds 2^62 - 1 to total and lost; and a file that ends early.

#![tactic(auto)]

use std::io;
use totals::{Standing, Totals};

// Prints the page of the totals, where so many bytes of the file are left.
fn show(rt: &impl Print, totals: Totals, left: usize, output: &mut [u8]) -> io::Result<()> {
    let standing = Standing { totals, skip: 0 };
    let Ok(next) = page::put_page(output, standing, left) else {
        return Ok(());
    };
    rt.write_all(&output[..next])?;
    println!(rt; "")
}

fn main(rt: HostRuntime) -> io::Result<()> {
    let mut output = [0u8; 1363];
    let sums = [18446744073709551614u64; 29];
    let full = [0u64; 29];
    let start = Totals { sums, full };
    show(&rt, start, 0, &mut output)?;
    // Total 1, received 1, and an entry of each status.
    let small =
        b"\x00\x00\x01\x01\x00\x00\x00\x00\x04\x00\x00\x00\x00\x00\x00\x00\x01\x00\x00\x00\x00\x00\x00\x00\x05\x00\x00\x00\x00\x00\x00\x00\x02\x01\x00\x00\x00\x00\x00\x00\x05\x00\x00\x00\x00\x00\x00\x00\x03\x02\x00\x00\x00\x00\x00\x00\x00\x00\x00\x00\x00\x00\x00\x00\x04\x03\x00\x00\x00\x00\x00\x00\x05";
    let at = start.add(small);
    show(&rt, at, 0, &mut output)?;
    let past = at.add(small);
    show(&rt, past, 0, &mut output)?;
    let long = [0u8; 8193];
    let skipped = past.add(&long);
    show(&rt, skipped, 0, &mut output)?;
    let large =
        b"\x00\x00\xff\xff\xff\xff\xff\xff\xff\xff\x00\x00\xff\xff\xff\xff\xff\xff\xff\xff\x00\x00\x00";
    let lost = skipped.add(large);
    show(&rt, lost, 0, &mut output)?;
    show(&rt, lost, 1, &mut output)
}
