// All analyses of one file in one function over lent tables: refusals 1 to 7, or what lowering asks.
#![tactic(auto)]

pub mod clearing;
mod front;
mod lengths;
mod steps;

ghost use Rattle.std.specs.Prelude.{◌≡◌};
ghost use Rattle.tables.specs.Tables.{tables_of, cleared};
ghost use Rattle.tables.specs.Filled.{Filled};

use crate::clearing::clear_all;
use crate::front::over_fronts;
use crate::lengths::are_long;
use file::{check_file, number_of};

// All refusals, over tables of zeros. `order` is not in use yet while the file is checked.
fn judge(
    keys: &mut [u64],
    numbers: &mut [u32],
    spare: &mut [u32],
    offs: &mut [u64],
    order: &mut [u32],
    starts: &mut [u32],
    loads: &mut [u32],
    live: &mut [u32],
    phi: &mut [u32],
    roots: &mut [u32],
    places: &mut [u32],
    names: &mut [u32],
    marks: &mut [u32],
    labels: &mut [u32],
    f: &[u8],
) -> u32
    requires { tables_of keys.old numbers.old spare.old offs.old order.old starts.old loads.old live.old phi.old roots.old places.old names.old marks.old labels.old
        ≡ cleared (tables_of keys.old numbers.old spare.old offs.old order.old starts.old loads.old live.old phi.old roots.old places.old names.old marks.old labels.old) }
    ensures { Filled f.now result
        (tables_of keys.old numbers.old spare.old offs.old order.old starts.old loads.old live.old phi.old roots.old places.old names.old marks.old labels.old)
        (tables_of keys.new numbers.new spare.new offs.new order.new starts.new loads.new live.new phi.new roots.new places.new names.new marks.new labels.new) }
{
    if !are_long(
        keys.len(),
        numbers.len(),
        spare.len(),
        offs.len(),
        order.len(),
        starts.len(),
        loads.len(),
        live.len(),
        phi.len(),
        roots.len(),
        places.len(),
        names.len(),
        marks.len(),
        labels.len(),
    ) {
        return 1;
    }
    let n = number_of(check_file(f, order));
    if n != 0 {
        return n;
    }
    over_fronts(
        keys, numbers, spare, offs, order, starts, loads, live, phi, roots, places, names, marks,
        labels, f,
    )
}

// The first refusal of 1 to 7 with zeros in all tables, or 0 with what the file's values and blocks are.
pub fn sorkhelaw_tables(
    f: &[u8],
    keys: &mut [u64],
    numbers: &mut [u32],
    spare: &mut [u32],
    offs: &mut [u64],
    order: &mut [u32],
    starts: &mut [u32],
    loads: &mut [u32],
    live: &mut [u32],
    phi: &mut [u32],
    roots: &mut [u32],
    places: &mut [u32],
    names: &mut [u32],
    marks: &mut [u32],
    labels: &mut [u32],
) -> u32
    ensures { Filled f.now result
        (tables_of keys.old numbers.old spare.old offs.old order.old starts.old loads.old live.old phi.old roots.old places.old names.old marks.old labels.old)
        (tables_of keys.new numbers.new spare.new offs.new order.new starts.new loads.new live.new phi.new roots.new places.new names.new marks.new labels.new) }
{
    clear_all(
        keys, numbers, spare, offs, order, starts, loads, live, phi, roots, places, names, marks,
        labels,
    );
    judge(
        keys, numbers, spare, offs, order, starts, loads, live, phi, roots, places, names, marks,
        labels, f,
    )
}
