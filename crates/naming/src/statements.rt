// What live statements define and read, in order.
ghost use Rattle.std.specs.Prelude.{◌≡◌, map, ◌-◌, ◌≤◌, ◌<◌};
ghost use Rattle.definition.specs.Edition.{statements};
ghost use Rattle.definition.specs.Lists.{gather, range};
ghost use Rattle.definition.specs.Contents.{size};
ghost use Rattle.definition.specs.Owners.{first_item};
ghost use Rattle.defined.specs.Defined.{list_of};
ghost use Rattle.names.specs.Spots.{spot, known, state};
ghost use Rattle.naming.specs.Walk.{walked, field_spots, stmt_spots};
ghost use Rattle.naming.specs.Given.{Went, standing};

use crate::position::Walk;
use crate::runs::{item_mention, name_run, use_mention};
use crate::tables::Tables;
use defined::value::{Value, assigned_by, next_item, returned_by};
use names::key::name_key;
use records::owners::{expr_items, is_dead, value_items};
use slices::get;

// A value that a statement defines by its fields, if there is one; place p names it.
fn name_defined(
    names: &mut [u32],
    seen: &mut [u32],
    of: &Tables<'_>,
    p: usize,
    d: Option<Value>,
    next: u32,
) -> u32
    ensures { state names.new seen.new result
        ≡ walked (known of.now.numbers.now of.now.roots.now of.now.away.now) (state names.old seen.old next)
        (map (spot p) (list_of d)) }
{
    match d {
        None => next,
        Some(v) => name_key(names, seen, of.numbers, of.roots, of.away, p, v, next),
    }
}

// What statement i defines by its fields.
fn name_fields(names: &mut [u32], seen: &mut [u32], of: &Tables<'_>, i: u32, next: u32) -> u32
    ensures { state names.new seen.new result
        ≡ walked (known of.now.numbers.now of.now.roots.now of.now.away.now) (state names.old seen.old next)
        (field_spots of.now.f.now i) }
{
    let p = of.at.stmts + i as usize;
    let d = assigned_by(of.f, i);
    let next = name_defined(names, seen, of, p, d, next);
    let d = returned_by(of.f, i);
    name_defined(names, seen, of, p, d, next)
}

// Statement i, whose list items begin at `first`, where it is live.
fn name_stmt(
    names: &mut [u32],
    seen: &mut [u32],
    of: &Tables<'_>,
    i: u32,
    first: u32,
    next: u32,
) -> u32
    requires { (i < size of.now.f.now statements) × (first ≡ first_item of.now.f.now i) }
    ensures { state names.new seen.new result
        ≡ walked (known of.now.numbers.now of.now.roots.now of.now.away.now) (state names.old seen.old next)
        (stmt_spots of.now.f.now i) }
{
    if is_dead(of.f, i) {
        return next;
    }
    let next = name_fields(names, seen, of, i, next);
    let a = first + expr_items(of.f, i);
    let b = a + value_items(of.f, i);
    let next = name_run(names, seen, of, |k| item_mention(of, k), a, b, next);
    let x = get(of.starts, i as usize);
    let y = get(of.starts, i as usize + 1);
    name_run(names, seen, of, |k| use_mention(of, k), x, y, next)
}

// The next statements, up to b.
pub fn name_stmts(names: &mut [u32], seen: &mut [u32], of: &Tables<'_>, b: u32, w: Walk) -> Walk
    requires { (w.stmt ≤ b) × (b ≤ size of.now.f.now statements) × (w ≡ standing of.now.f.now w.phi w.stmt w.next) }
    ensures { Went of.now.f.now (known of.now.numbers.now of.now.roots.now of.now.away.now)
        names.old seen.old names.new seen.new w result w.phi b
        (gather (stmt_spots of.now.f.now) (range w.stmt (b - w.stmt))) }
{
    let mut item = w.item;
    let mut next = w.next;
    for i in w.stmt..b {
        next = name_stmt(names, seen, of, i, item, next);
        item = next_item(of.f, i, item);
    }
    Walk {
        stmt: b,
        item,
        next,
        ..w
    }
}
