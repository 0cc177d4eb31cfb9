// Prints the listing of the function file on standard input.
#![tactic(auto)]

use input::read_full;
use printing::print_listing;
use std::io;

// What is said where the input cannot be read.
fn failed<R: Eprint>(rt: &R) -> io::Result<()> {
    rt.eprintln("listing: cannot read standard input")
}

fn main(rt: HostRuntime) -> io::Result<()> {
    // One byte over the limit tells a file that is too long.
    let mut buf = [0u8; 65537];
    match read_full(&mut rt.reader(), &mut buf) {
        Ok(n) => print_listing(&mut io::writer(&rt), &buf[..n]),
        Err(_) => failed(&rt),
    }
}
