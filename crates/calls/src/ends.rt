// Whether a block's last statement leaves it.
ghost use Rattle.std.specs.Prelude.{◌≡◌, false, map, ◌+◌, ◌≤◌};
ghost use Rattle.definition.specs.Edition.{Edition};
ghost use Rattle.definition.specs.Lists.{range};
ghost use Rattle.definition.specs.Read.{all_trees, stmt_at};
ghost use Rattle.definition.specs.Blocks.{last_leaves};
ghost use Rattle.calls.specs.Numbered.{leaves_at};

use records::owners::{BRANCH, RETURN, stmt_kind};

// Whether statement i leaves its block, dead or live.
#[tactic(auto, unfolding(crate::specs::Numbered::leaves_at))]
fn leaves(f: &[u8], i: u32) -> bool
    ensures { result ≡ leaves_at f.now i }
{
    let k = stmt_kind(f, i);
    k == BRANCH || k == RETURN
}

// Whether the last of `count` statements from `first` on does. No statement's number is above 32 bits.
pub fn last_leaves(f: &[u8], first: u32, count: u32) -> bool
    requires { first + count ≤ 4294967296 }
    ensures { (E : Edition) → result ≡ last_leaves false (map (stmt_at E f.now (all_trees E f.now)) (range first count)) }
{
    count != 0 && leaves(f, first + (count - 1))
}
