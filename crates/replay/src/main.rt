// Replays stored function files: a batch on standard input (their number and lengths, a word each, then the files). For each file it
// prints a line with its number, then its listing.
#![tactic(auto)]

use input::read_full;
use printing::print_listing;
use std::io;
use std::io::{Read, Write};

// The most files of a batch: their lengths fill one buffer.
const MOST: u32 = 1024;

fn print_file<W: Write>(out: &mut W, i: u32, f: &[u8]) -> io::Result<()> {
    writeln!(out, "file {i}")?;
    print_listing(out, f)
}

// The file that fills f comes next; one that is cut off is passed over.
fn replay_into<R: Read, W: Write>(
    from: &mut R,
    out: &mut W,
    i: u32,
    f: &mut [u8],
) -> io::Result<()> {
    if read_full(from, f)? == f.len() {
        print_file(out, i, f)?;
    }
    Ok(())
}

// File i has n bytes: a batch holds none of more than one byte over the limit, which is enough to be refused for it.
fn replay<R: Read, W: Write>(from: &mut R, out: &mut W, i: u32, n: usize) -> io::Result<()> {
    let mut buf = [0u8; 65537];
    if n <= 65537 {
        replay_into(from, out, i, &mut buf[0..n])?;
    }
    Ok(())
}

fn replay_all<R: Read, W: Write>(
    from: &mut R,
    out: &mut W,
    lengths: &[u8],
    count: u32,
) -> io::Result<()> {
    for i in 0..count {
        replay(
            from,
            out,
            i,
            words::word_at(lengths, 4 * (i as usize)) as usize,
        )?;
    }
    Ok(())
}

fn replay_batch<R: Read, W: Write>(
    from: &mut R,
    out: &mut W,
    count: u32,
    lengths: &mut [u8],
) -> io::Result<()> {
    read_full(from, lengths)?;
    replay_all(from, out, lengths, count)
}

fn main(rt: HostRuntime) -> io::Result<()> {
    let mut from = rt.reader();
    let mut head = [0u8; 4];
    read_full(&mut from, &mut head)?;
    let count = words::word_at(&head, 0);
    if count <= MOST {
        let mut lengths = [0u8; 4096];
        let n = 4 * (count as usize);
        replay_batch(&mut from, &mut io::writer(&rt), count, &mut lengths[0..n])?;
    }
    Ok(())
}
