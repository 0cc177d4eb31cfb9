// Prints the 22 words of a function file's table of contents, one to a line: the file on standard input.
#![tactic(auto)]

use input::read_full;
use std::io;
use std::io::Write;

fn print_word<W: Write>(out: &mut W, f: &[u8], at: usize) -> io::Result<()> {
    let word = words::word_at(f, at);
    writeln!(out, "{word}")
}

fn print_words<W: Write>(out: &mut W, f: &[u8]) -> io::Result<()> {
    for k in 0..22usize {
        print_word(out, f, 4 * k)?;
    }
    Ok(())
}

fn main(rt: HostRuntime) -> io::Result<()> {
    let mut buf = [0u8; 65536];
    let n = read_full(&mut rt.reader(), &mut buf)?;
    print_words(&mut io::writer(&rt), &buf[..n])
}
