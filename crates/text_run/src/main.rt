// Document 01's examples of numbers, slots and four-byte loads, written by the writers, one a line.
#![tactic(auto)]

use digits::{HALF, num, pointer, slot};
use leaf::{Wrote, copy};
use std::io;
use std::io::Write;
use text::names::{global_name, is_global};

fn first<W: Write>(out: &mut W, n: usize, line: &[u8]) -> io::Result<()> {
    if n <= line.len() {
        out.write_all(&line[..n])?;
    }
    Ok(())
}

// What was written, at the start of the line's room.
fn put<W: Write>(out: &mut W, w: Wrote, line: &[u8]) -> io::Result<()> {
    let Ok(n) = w else {
        return out.write_all(b"no room");
    };
    first(out, n, line)
}

fn end<W: Write>(out: &mut W) -> io::Result<()> {
    out.write_all(b"\n")
}

fn number<W: Write>(out: &mut W, bits: u64) -> io::Result<()> {
    let mut line = [0u8; 32];
    let w = num(&mut line, bits);
    put(out, w, &line)?;
    end(out)
}

fn offset<W: Write>(out: &mut W, s: u64) -> io::Result<()> {
    let mut line = [0u8; 32];
    let w = slot(&mut line, s);
    put(out, w, &line)?;
    end(out)
}

// A four-byte load from the constant c that is no global, piece by piece.
fn through<W: Write>(out: &mut W, c: u64) -> io::Result<()> {
    let mut line = [0u8; 32];
    let a = pointer(&mut line, 4);
    put(out, a, &line)?;
    let b = copy(&mut line, b"(");
    put(out, b, &line)?;
    let n = num(&mut line, c);
    put(out, n, &line)?;
    let e = copy(&mut line, b")");
    put(out, e, &line)?;
    end(out)
}

// The same from any constant, in a file without names.
fn load<W: Write>(out: &mut W, c: u64) -> io::Result<()> {
    if is_global(c) {
        let mut line = [0u8; 32];
        let w = global_name(&mut line, b"", 8, c, 4);
        put(out, w, &line)?;
        return end(out);
    }
    through(out, c)
}

fn main(rt: HostRuntime) -> io::Result<()> {
    let mut out = io::writer(&rt);
    // -10, -9, 9, 10 and -2^63
    number(&mut out, 0xFFFF_FFFF_FFFF_FFF6)?;
    number(&mut out, 0xFFFF_FFFF_FFFF_FFF7)?;
    number(&mut out, 9)?;
    number(&mut out, 10)?;
    number(&mut out, HALF)?;
    // -16, 0 and 8
    offset(&mut out, HALF - 16)?;
    offset(&mut out, HALF)?;
    offset(&mut out, HALF + 8)?;
    load(&mut out, 0xFFF)?;
    load(&mut out, 0x1000)
}
