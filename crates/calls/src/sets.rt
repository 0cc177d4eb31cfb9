// How many argument registers a call gets: up to the last that was set since the last live call.
ghost use Rattle.std.specs.Prelude.{◌≡◌, List, [], ◌∷◌, ℕ};
ghost use Rattle.definition.specs.Edition.{Edition};
ghost use Rattle.definition.specs.Meaning.{arg_regs};
ghost use Rattle.definition.specs.Read.{all_trees, stmt_at, read};
ghost use Rattle.definition.specs.Lower.{count_set};
ghost use Rattle.definition.specs.Blocks.{set_after};

use records::contents::{ARGS, arg_at, size_of};
use records::owners::{ASSIGN, CALL, is_dead, stmt_field, stmt_kind};

// How many arguments there are up to the last in register v.
fn last_place(f: &[u8], v: u32) -> u32
    ensures { result ≡ count_set (v ∷ []) (arg_regs f.now) }
{
    for i in (0..size_of(f, ARGS)).rev() {
        if arg_at(f, i) == v {
            return i + 1;
        }
    }
    0
}

// How many behind statement i, where before it there are `count`. An Assign, dead or live, sets its register; a live call clears all.
pub fn set_behind(f: &[u8], i: u32, count: u32) -> u32
    ensures { (E : Edition) (set : List ℕ) → count ≡ count_set set (read E f.now).args
        → result ≡ count_set (set_after (read E f.now).args (stmt_at E f.now (all_trees E f.now) i) (stmt_at E f.now (all_trees E f.now) i).kind set) (read E f.now).args }
{
    let k = stmt_kind(f, i);
    if k == ASSIGN {
        return count.max(last_place(f, stmt_field(f, i, 0)));
    }
    if k != CALL || is_dead(f, i) {
        return count;
    }
    0
}
