// The search for the one later read of a value in its block.
#![tactic(auto)]

ghost use Rattle.std.specs.Prelude.{◌≡◌, ◌&&◌, ◌<◌, ◌≤◌, ◌-◌, eqb};
ghost use Rattle.definition.specs.Owners.{stmt_field};
ghost use Rattle.definition.specs.Lists.{at};
ghost use Rattle.later.specs.Search.{changes, changed, later_read};

use records::owners::{ASSIGN, BRANCH, FLAGS, RETURN, stmt_field, stmt_kind};
use slices::get;

// Dead or live, a Store, a Call or an Other may change what a load reads. A number that is no kind's reads as an Other; check 4 refuses it.
fn changes_memory(f: &[u8], i: u32) -> bool
    ensures { result ≡ changes f.now i }
{
    match stmt_kind(f, i) {
        ASSIGN | BRANCH | FLAGS | RETURN => false,
        _ => true,
    }
}

// Whether a statement from `from` on and before `to` does.
fn memory_changed(f: &[u8], from: u32, to: u32) -> bool
    requires { from ≤ to }
    ensures { result ≡ changed f.now from (to - from) }
{
    (from..to).any(|i| changes_memory(f, i))
}

// Only an expression that loads minds.
fn load_changed(f: &[u8], from: u32, to: u32, loads: u32) -> bool
    requires { from ≤ to }
    ensures { result ≡ (eqb loads 1 && changed f.now from (to - from)) }
{
    loads == 1 && memory_changed(f, from, to)
}

// The statement that reads what statement i defines, value n, if it is the one read and may have it written there: it counts where it stands later in the
// block, which ends before statement `end`.
#[tactic(auto, unfolding(crate::specs::Search::later_read, crate::specs::Search::reached))]
pub fn later_read(
    f: &[u8],
    readers: &[u32],
    loads: &[u32],
    i: u32,
    end: u32,
    n: usize,
) -> Option<u32>
    requires { i < end }
    ensures { result ≡ later_read f.now i end (at readers.now n) (at loads.now (stmt_field f.now i 2)) }
{
    let reader = get(readers, n);
    if reader <= i + 1 || end < reader {
        return None;
    }
    let load = get(loads, stmt_field(f, i, 2) as usize);
    if load_changed(f, i + 1, reader - 1, load) {
        return None;
    }
    Some(reader - 1)
}
