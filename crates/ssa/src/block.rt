// Phis and blocks, with the numbers of their parts: owners take their parts in order, so a caller carries the first of each along.
ghost use Rattle.std.specs.Prelude.{◌≡◌};
ghost use Rattle.ssa.specs.Block.{phi_record, block_record};

use defined::value::{Value, phi_value};
use records::contents::{block_long, block_word, phi_word};
use records::owners::{block_phis, block_stmts, phi_inputs};

#[derive(Clone, Copy)]
pub struct Phi {
    pub value: Value,
    pub dead: bool,
    // How many inputs it has.
    pub inputs: u32,
}

#[derive(Clone, Copy)]
pub struct Block {
    pub start: u64,
    // Where control goes by its branch, and where it falls, if anywhere.
    pub taken: Option<u64>,
    pub fall: Option<u64>,
    // How many phis and statements it has.
    pub phis: u32,
    pub stmts: u32,
}

pub fn phi_at(f: &[u8], i: u32) -> Phi
    ensures { result ≡ phi_record f.now i }
{
    Phi {
        value: phi_value(f, i),
        dead: phi_word(f, i, 2) == 1,
        inputs: phi_inputs(f, i),
    }
}

pub fn block_at(f: &[u8], i: u32) -> Block
    ensures { result ≡ block_record f.now i }
{
    Block {
        start: block_long(f, i, 0),
        taken: (block_word(f, i, 2) == 1).then_some(block_long(f, i, 3)),
        fall: (block_word(f, i, 5) == 1).then_some(block_long(f, i, 6)),
        phis: block_phis(f, i),
        stmts: block_stmts(f, i),
    }
}
