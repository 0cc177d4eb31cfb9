// The pushes that wait for a call: those of the block from one statement on, so one number says which.
ghost use Rattle.std.specs.Prelude.{◌≡◌, map, ◌+◌, ◌-◌, ◌≤◌, ◌<◌};
ghost use Rattle.definition.specs.Edition.{Edition};
ghost use Rattle.definition.specs.Lists.{any, range};
ghost use Rattle.definition.specs.Read.{all_trees, stmt_at};
ghost use Rattle.definition.specs.Lower.{takes};
ghost use Rattle.definition.specs.Blocks.{pend_after};
ghost use Rattle.calls.specs.Numbered.{takes_at};
ghost use Rattle.calls.specs.Waiting.{pending};

use records::owners::{CALL, is_pushed, stmt_kind};

// Whether statement i takes the pushes before it: a call, dead or live, that is no push itself.
#[tactic(auto, unfolding(crate::specs::Numbered::takes_at))]
fn takes_pushes(f: &[u8], i: u32) -> bool
    ensures { result ≡ takes_at f.now i }
{
    !is_pushed(f, i) && stmt_kind(f, i) == CALL
}

// From where on pushes wait behind statement i, where before it they wait from `from` on.
pub fn from_behind(f: &[u8], i: u32, from: u32) -> u32
    requires { i < 4294967295 }
    ensures { (E : Edition) → from ≤ i
        → (pend_after (stmt_at E f.now (all_trees E f.now) i) (pending E f.now from i) ≡ pending E f.now result (i + 1)) × (result ≤ i + 1) }
{
    if takes_pushes(f, i) { i + 1 } else { from }
}

// Whether a statement behind i and before `end` takes the pushes before it.
pub fn taken_behind(f: &[u8], i: u32, end: u32) -> bool
    ensures { (E : Edition) → result ≡ any takes (map (stmt_at E f.now (all_trees E f.now)) (range (i + 1) (end - (i + 1)))) }
{
    i < end && (i + 1..end).any(|j| takes_pushes(f, j))
}
