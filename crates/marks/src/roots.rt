// Which classes are really read: by a live statement that is no save of a callee-saved register's entry value to its stack slot.
ghost use Rattle.std.specs.Prelude.{◌≡◌, ◌||◌, List, ◌<◌, length, replicate};
ghost use Rattle.definition.specs.Edition.{Edition, statements};
ghost use Rattle.definition.specs.Contents.{size, text};
ghost use Rattle.definition.specs.Read.{kind_at, all_trees, marked};
ghost use Rattle.definition.specs.Offsets.{Known, look};
ghost use Rattle.definition.specs.Blocks.{is_save};
ghost use Rattle.places.specs.Keys.{places_of};
ghost use Rattle.values.specs.Tables.{table};
ghost use Rattle.uses.specs.Orders.{Ordered};
ghost use Rattle.reads.specs.Counts.{visit, slots};
ghost use Rattle.marks.specs.Reading.{classed, reading, ReadRoots};

use crate::saves::is_save;
use reads::visit_run;
use records::contents::{STATEMENTS, size_of};
use records::owners::is_dead;
use slices::{get, put};
use sums::numbered::Numbered;

// Does statement i read nothing that counts: it is dead, or a save.
fn passed_over(offsets: &[u64], of: &Numbered<'_>, i: u32) -> bool
    ensures { (E : Edition) (k : List Known) → text E ≡ of.now.t → offsets.now ≡ table of.now.f.now (length of.now.numbers.now) (look k)
        → result ≡ (marked of.now.f.now i 1 || is_save k (kind_at E of.now.f.now (all_trees E of.now.f.now) i)) }
{
    if is_dead(of.f, i) {
        return true;
    }
    is_save(offsets, of, i)
}

// 1 at the roots of what statement i reads.
fn mark_stmt(
    tab: &mut [u32],
    of: &Numbered<'_>,
    offsets: &[u64],
    roots: &[u32],
    order: &[u32],
    starts: &[u32],
    i: u32,
)
    requires ordered { Ordered of.now.f.now (length order.now) (length starts.now) order.now starts.now }
    requires i_bound { i < size of.now.f.now statements }
    ensures { (E : Edition) (k : List Known) → text E ≡ of.now.t → offsets.now ≡ table of.now.f.now (length of.now.numbers.now) (look k)
        → tab.new ≡ visit (classed roots.now) tab.old (slots of.now.numbers.now (places_of of.now.f.now).exprs (reading E of.now.f.now k i)) }
{
    if passed_over(offsets, of, i) {
        return;
    }
    let a = get(starts, i as usize);
    let b = get(starts, i as usize + 1);
    visit_run(
        tab,
        of.numbers,
        order,
        of.places.exprs,
        a,
        b,
        |t: &mut [u32], n| put(t, get(roots, n) as usize, 1),
    );
}

// 1 at the root of each class of which some value is really read.
pub fn read_roots(
    tab: &mut [u32],
    of: &Numbered<'_>,
    offsets: &[u64],
    roots: &[u32],
    order: &[u32],
    starts: &[u32],
)
    requires ordered { Ordered of.now.f.now (length order.now) (length starts.now) order.now starts.now }
    requires tab_value { tab.old ≡ replicate (length of.now.numbers.now) 0 }
    ensures { ReadRoots of.now.f.now of.now.t (length of.now.numbers.now) offsets.now roots.now tab.new }
{
    let n = size_of(of.f, STATEMENTS);
    for i in 0..n {
        mark_stmt(tab, of, offsets, roots, order, starts, i);
    }
}
