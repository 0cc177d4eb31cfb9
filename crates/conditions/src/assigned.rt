// Which statement of a block assigns a value, so that its place names it.
ghost use Rattle.std.specs.Prelude.{◌≡◌, true, ◌+◌, ◌≤◌};
ghost use Rattle.definition.specs.Edition.{statements};
ghost use Rattle.definition.specs.Contents.{size};
ghost use Rattle.definition.specs.Lists.{any, range};
ghost use Rattle.conditions.specs.Assigns.{assigns_as, Alike};

use records::owners::{ASSIGN, stmt_field, stmt_kind};

// Whether statement k is an Assign to the value that statement i has in its fields.
#[tactic(auto, unfolding(crate::specs::Assigns::assigns_as))]
fn is_alike(f: &[u8], i: u32, k: u32) -> bool
    ensures { result ≡ assigns_as f.now i k }
{
    stmt_kind(f, k) == ASSIGN
        && stmt_field(f, k, 0) == stmt_field(f, i, 0)
        && stmt_field(f, k, 1) == stmt_field(f, i, 1)
}

// The first such of `count` statements from `first` on, of which one is.
pub fn assigning(f: &[u8], first: u32, count: u32, i: u32) -> u32
    requires count_bound { first + count ≤ size f.now statements }
    requires count_value { any (assigns_as f.now i) (range first count) ≡ true }
    ensures { Alike f.now i result }
{
    // `first` is never fallen back on, since one of them is.
    (first..first + count)
        .find(|k| is_alike(f, i, *k))
        .unwrap_or(first)
}
