// A file's listing on standard output, as document 01 says: a header, then each line's address, indent and text; or `refused` and the number.
#![tactic(auto)]

use digits::hex_upper;
use lent::answer::Answer;
use lister::sorkhelaw_list;
use sheet::tokens::start_at;
use std::io;
use std::io::Write;

// The numbers of a line: whether it has an address, the address, its indent, the end of its tokens, 0.
const ROW: usize = 5;

fn say<W: Write>(out: &mut W, text: &[u8]) -> io::Result<()> {
    out.write_all(text)
}

fn say_number<W: Write>(out: &mut W, text: &[u8], n: u64) -> io::Result<()> {
    say(out, text)?;
    write!(out, "{n}")
}

// The bytes from a place to another, where they are there.
fn say_between<W: Write>(out: &mut W, text: &[u8], from: usize, to: usize) -> io::Result<()> {
    if to < from || text.len() < to {
        return Ok(());
    }
    say(out, &text[from..to])
}

fn say_address<W: Write>(out: &mut W, a: u64) -> io::Result<()> {
    let mut digits = [0u8; 16];
    if let Ok(n) = hex_upper(&mut digits, a) {
        say_between(out, &digits, 0, n)?;
    }
    Ok(())
}

// The address and the indent of a line, by its numbers.
fn say_front<W: Write>(out: &mut W, row: &[u64]) -> io::Result<()> {
    if row.len() < ROW {
        return Ok(());
    }
    if row[0] == 0 {
        say(out, b"-")?;
    } else {
        say_address(out, row[1])?;
    }
    say_number(out, b" ", row[2])?;
    say(out, b" ")
}

// A line's text goes from the end of the one before it to the end of its own tokens.
fn say_lines<W: Write>(out: &mut W, lines: &[u64], tokens: &[u64], text: &[u8]) -> io::Result<()> {
    let mut from = 0;
    for row in lines.chunks_exact(ROW) {
        say_front(out, row)?;
        let to = start_at(tokens, row[3] as usize);
        say_between(out, text, from, to)?;
        say(out, b"\n")?;
        from = to;
    }
    Ok(())
}

fn say_header<W: Write>(out: &mut W, a: Answer) -> io::Result<()> {
    say_number(out, b"ifs ", a.ifs as u64)?;
    say_number(out, b" loops ", a.loops as u64)?;
    say_number(out, b" lines ", a.lines as u64)?;
    say_number(out, b" tests ", a.tests as u64)?;
    say(out, b"\n")
}

// The lines that were counted are the first of the lent ones.
fn say_listing<W: Write>(
    out: &mut W,
    a: Answer,
    lines: &[u64],
    tokens: &[u64],
    text: &[u8],
) -> io::Result<()> {
    say_header(out, a)?;
    if a.lines <= lines.len() / ROW {
        say_lines(out, &lines[..ROW * a.lines], tokens, text)?;
    }
    Ok(())
}

fn say_answer<W: Write>(
    out: &mut W,
    a: Answer,
    lines: &[u64],
    tokens: &[u64],
    text: &[u8],
) -> io::Result<()> {
    if a.number == 0 {
        return say_listing(out, a, lines, tokens, text);
    }
    say_number(out, b"refused ", a.number as u64)?;
    say(out, b"\n")
}

// All scratch is made here.
fn list(f: &[u8], lines: &mut [u64], tokens: &mut [u64], text: &mut [u8]) -> Answer {
    let mut low_lines = [0u64; 3840];
    let mut low_tokens = [0u64; 6144];
    let mut low_text = [0u8; 32768];
    let mut keys = [0u64; 7696];
    let mut numbers = [0u32; 7696];
    let mut spare = [0u32; 7696];
    let mut offs = [0u64; 7696];
    let mut order = [0u32; 2048];
    let mut starts = [0u32; 1025];
    let mut loads = [0u32; 2048];
    let mut live = [0u32; 7696];
    let mut phi = [0u32; 7696];
    let mut roots = [0u32; 7696];
    let mut places = [0u32; 7696];
    let mut names = [0u32; 7696];
    let mut marks = [0u32; 7696];
    let mut labels = [0u32; 320];
    sorkhelaw_list(
        f,
        lines,
        tokens,
        text,
        &mut low_lines,
        &mut low_tokens,
        &mut low_text,
        &mut keys,
        &mut numbers,
        &mut spare,
        &mut offs,
        &mut order,
        &mut starts,
        &mut loads,
        &mut live,
        &mut phi,
        &mut roots,
        &mut places,
        &mut names,
        &mut marks,
        &mut labels,
    )
}

pub fn print_listing<W: Write>(out: &mut W, f: &[u8]) -> io::Result<()> {
    let mut lines = [0u64; 7680];
    let mut tokens = [0u64; 6144];
    let mut text = [0u8; 32768];
    let a = list(f, &mut lines, &mut tokens, &mut text);
    say_answer(out, a, &lines, &tokens, &text)
}
