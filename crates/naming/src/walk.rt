// The walk over the blocks: a block's phis, then its statements.
ghost use Rattle.std.specs.Prelude.{◌≡◌, ◌+◌, ◌<◌};
ghost use Rattle.definition.specs.Edition.{blocks};
ghost use Rattle.definition.specs.Contents.{size};
ghost use Rattle.definition.specs.Owners.{first_phi, first_stmt};
ghost use Rattle.names.specs.Spots.{known, state};
ghost use Rattle.naming.specs.Walk.{walked, block_spots, spots};
ghost use Rattle.naming.specs.Given.{Went, standing};

use crate::phis::name_phis;
use crate::position::Walk;
use crate::statements::name_stmts;
use crate::tables::Tables;
use records::contents::{BLOCKS, size_of};
use records::owners::{block_phis, block_stmts};

// Block b: its phis, then its statements.
fn name_block(names: &mut [u32], seen: &mut [u32], of: &Tables<'_>, b: u32, w: Walk) -> Walk
    requires { (b < size of.now.f.now blocks) × (w ≡ standing of.now.f.now (first_phi of.now.f.now b) (first_stmt of.now.f.now b) w.next) }
    ensures { Went of.now.f.now (known of.now.numbers.now of.now.roots.now of.now.away.now)
        names.old seen.old names.new seen.new w result (first_phi of.now.f.now (b + 1)) (first_stmt of.now.f.now (b + 1))
        (block_spots of.now.f.now b) }
{
    let e = w.phi + block_phis(of.f, b);
    let v = name_phis(names, seen, of, e, w);
    let e = v.stmt + block_stmts(of.f, b);
    name_stmts(names, seen, of, e, v)
}

// All blocks; the locals' numbers begin at 1.
pub fn name_blocks(names: &mut [u32], seen: &mut [u32], of: &Tables<'_>) -> u32
    ensures { state names.new seen.new result
        ≡ walked (known of.now.numbers.now of.now.roots.now of.now.away.now) (state names.old seen.old 1)
        (spots of.now.f.now) }
{
    let n = size_of(of.f, BLOCKS);
    let mut w = Walk {
        phi: 0,
        stmt: 0,
        input: 0,
        item: 0,
        next: 1,
    };
    for b in 0..n {
        w = name_block(names, seen, of, b, w);
    }
    w.next
}
