// The values that are really read at entry, and the parameters: the argument registers up to the last of which the entry value is.
ghost use Rattle.std.specs.Prelude.{◌≡◌, ◌||◌, ◌<◌, eqb, length, replicate};
ghost use Rattle.definition.specs.Codes.{k_call, k_branch};
ghost use Rattle.definition.specs.Edition.{statements};
ghost use Rattle.definition.specs.Contents.{size};
ghost use Rattle.definition.specs.Owners.{stmt_kind};
ghost use Rattle.definition.specs.Read.{marked};
ghost use Rattle.places.specs.Keys.{places_of};
ghost use Rattle.uses.specs.Orders.{Ordered};
ghost use Rattle.names.specs.Spots.{entry_spots, ticked};
ghost use Rattle.names.specs.Given.{Numbered, Counted, EntryRead};

use places::places_of;
use reads::visit_run;
use records::contents::{ARGS, STATEMENTS, size_of};
use records::owners::{BRANCH, CALL, is_dead, stmt_kind};
use slices::{get, put};

// Does statement i make no parameter: it is dead, or reads every argument register by convention.
fn passed_over(f: &[u8], i: u32) -> bool
    ensures { result ≡ (marked f.now i 1 || (eqb (stmt_kind f.now i) k_call || eqb (stmt_kind f.now i) k_branch)) }
{
    let k = stmt_kind(f, i);
    is_dead(f, i) || k == CALL || k == BRANCH
}

// What statement i really reads.
fn tick_stmt(
    tab: &mut [u32],
    f: &[u8],
    numbers: &[u32],
    order: &[u32],
    starts: &[u32],
    from: usize,
    i: u32,
)
    requires from_value { (from ≡ (places_of f.now).exprs) × (i < size f.now statements) }
    requires ordered { Ordered f.now (length order.now) (length starts.now) order.now starts.now }
    ensures { tab.new ≡ ticked numbers.now tab.old (entry_spots f.now i) }
{
    if passed_over(f, i) {
        return;
    }
    let a = get(starts, i as usize);
    let b = get(starts, i as usize + 1);
    visit_run(
        tab,
        numbers,
        order,
        from,
        a,
        b,
        |t: &mut [u32], n| put(t, n, 1),
    );
}

// 1 for each value that a live statement reads other than by convention.
pub fn entry_reads(tab: &mut [u32], f: &[u8], numbers: &[u32], order: &[u32], starts: &[u32])
    requires numbered { Numbered f.now numbers.now }
    requires ordered { Ordered f.now (length order.now) (length starts.now) order.now starts.now }
    requires tab_value { tab.old ≡ replicate (length numbers.now) 0 }
    ensures { EntryRead f.now (length numbers.now) tab.new }
{
    let from = places_of(f).exprs;
    let n = size_of(f, STATEMENTS);
    for i in 0..n {
        tick_stmt(tab, f, numbers, order, starts, from, i);
    }
}

// How many parameters there are.
pub fn params(f: &[u8], numbers: &[u32], entry: &[u32]) -> u32
    requires { Numbered f.now numbers.now }
    ensures { Counted f.now numbers.now entry.now result }
{
    for i in (0..size_of(f, ARGS)).rev() {
        if get(entry, get(numbers, i as usize) as usize) != 0 {
            return i + 1;
        }
    }
    0
}
