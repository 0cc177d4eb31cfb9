// The places of a file that may name a value: where those of each section begin, in a file whose owners' counts come out, and the key of what
// each names.
#![tactic(auto)]

pub mod key;

ghost use Rattle.std.specs.Prelude.{◌≡◌};
ghost use Rattle.places.specs.Keys.{places_of};

use records::contents::{ARGS, EXPRESSIONS, INPUTS, LISTS, PHIS, STATEMENTS, size_of};

// Args come first, at 0.
#[derive(Clone, Copy)]
pub struct Places {
    pub phis: usize,
    pub inputs: usize,
    pub stmts: usize,
    pub items: usize,
    pub exprs: usize,
    // How many places there are.
    pub total: usize,
}

pub fn places_of(f: &[u8]) -> Places
    ensures { result ≡ places_of f.now }
{
    let phis = size_of(f, ARGS) as usize;
    let inputs = phis + size_of(f, PHIS) as usize;
    let stmts = inputs + size_of(f, INPUTS) as usize;
    let items = stmts + size_of(f, STATEMENTS) as usize;
    let exprs = items + size_of(f, LISTS) as usize;
    Places {
        phis,
        inputs,
        stmts,
        items,
        exprs,
        total: exprs + size_of(f, EXPRESSIONS) as usize,
    }
}
