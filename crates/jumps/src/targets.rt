// Where a branch goes.
ghost use Rattle.std.specs.Prelude.{◌≡◌};
ghost use Rattle.ssa.specs.View.{option_of};
ghost use Rattle.jumps.specs.Written.{own_of, aim_of, goal_of};

use records::contents::stmt_long;
use records::owners::stmt_field;
use ssa::block::block_at;

// Its own target, if it has one.
fn own(f: &[u8], i: u32) -> Option<u64>
    ensures { option_of result ≡ own_of f.now i }
{
    (stmt_field(f, i, 3) == 1).then_some(stmt_long(f, i, 8))
}

// Of a plain branch, if it goes to an address: its own target, else where the block goes.
pub fn goal(f: &[u8], block: u32, i: u32) -> Option<u64>
    ensures { option_of result ≡ goal_of f.now block i }
{
    own(f, i).or(block_at(f, block).taken)
}

// Of a conditional branch: where the block goes, else its own target, else 0.
pub fn aim(f: &[u8], block: u32, i: u32) -> u64
    ensures { result ≡ aim_of f.now block i }
{
    block_at(f, block).taken.or(own(f, i)).unwrap_or(0)
}
