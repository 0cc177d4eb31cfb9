// The stages of a sound file: stack offsets, then what is read, then variables and marks, each over the tables before it.
ghost use Rattle.std.specs.Prelude.{◌≡◌, length, replicate};
ghost use Rattle.places.specs.Keys.{keyed};
ghost use Rattle.uses.specs.Orders.{Ordered};
ghost use Rattle.names.specs.Given.{EntryRead};
ghost use Rattle.analyses.specs.Sound.{Sound};
ghost use Rattle.analyses.specs.Tables.{ReadAs};
ghost use Rattle.tables.specs.Tables.{tables_of};
ghost use Rattle.tables.specs.Stages.{width, Grounded, Rooted, Stacked, Stack, Unread, Unnamed, Unmarked, Marked, Called, Counted, Blank, Analysed};

use crate::clearing::{clear_four, clear_numbers};
use analyses::{name_variables, number_values, read_tables, variables};
use marks::roots::read_roots;
use places::places_of;
use sums::numbered::Numbered;
use sums::outside::refused7;
use zeros::clear;

// The text's section of edition 1.
const TEXT: u32 = 8;

// The stack offsets, and whether a sum is outside.
fn stack<'a>(offs: &mut [u64], f: &'a [u8], numbers: &'a [u32], keys: &[u64]) -> bool
    requires grounded { Grounded f.now numbers.now }
    requires keys_value { keys.now ≡ keyed f.now (width f.now) }
    requires offs_value { offs.old ≡ replicate (width f.now) 0 }
    ensures { Stack f.now (width f.now) result offs.new }
{
    let of = Numbered {
        f,
        t: TEXT,
        places: places_of(f),
        numbers,
    };
    offsets::offsets(offs, &of, keys);
    refused7(offs, &of)
}

// The classes that are really read, and the blocks that have a label.
fn mark<'a>(
    marks: &mut [u32],
    labels: &mut [u32],
    f: &'a [u8],
    numbers: &'a [u32],
    offs: &[u64],
    roots: &[u32],
    order: &[u32],
    starts: &[u32],
)
    requires grounded { Grounded f.now numbers.now }
    requires stacked { Stacked f.now (width f.now) offs.now }
    requires rooted { Rooted f.now (width f.now) roots.now }
    requires ordered { Ordered f.now (length order.now) (length starts.now) order.now starts.now }
    requires unmarked { Unmarked (width f.now) marks.old labels.old }
    ensures { Marked f.now (width f.now) marks.new labels.new }
{
    let of = Numbered {
        f,
        t: TEXT,
        places: places_of(f),
        numbers,
    };
    read_roots(marks, &of, offs, roots, order, starts);
    labels::labels(labels, f);
}

// The variables, their names, then the marks by their roots. `spare` holds the last readers, then what is read at entry; `marks` is the scratch of naming.
fn name_all(
    roots: &mut [u32],
    places: &mut [u32],
    names: &mut [u32],
    spare: &mut [u32],
    marks: &mut [u32],
    labels: &mut [u32],
    f: &[u8],
    keys: &[u64],
    numbers: &[u32],
    offs: &[u64],
    order: &[u32],
    starts: &[u32],
    loads: &[u32],
    live: &[u32],
    phi: &[u32],
)
    requires grounded { Grounded f.now numbers.now }
    requires keys_value { keys.now ≡ keyed f.now (width f.now) }
    requires stacked { Stacked f.now (width f.now) offs.now }
    requires read_as { ReadAs f.now (width f.now) order.now starts.now loads.now live.now phi.now spare.old }
    requires unnamed { Unnamed (width f.now) roots.old places.old names.old }
    requires unmarked { Unmarked (width f.now) marks.old labels.old }
    ensures called { Called f.now (width f.now) roots.new places.new names.new marks.new labels.new }
    ensures entry_read { EntryRead f.now (width f.now) spare.new }
{
    variables(roots, places, f, keys, numbers, loads, live, phi, spare);
    clear(spare);
    name_variables(
        names, marks, spare, f, numbers, roots, places, order, starts,
    );
    mark(marks, labels, f, numbers, offs, roots, order, starts);
}

// What is read, and what is made from it; tables that lowering does not ask for are emptied.
fn read_all(
    order: &mut [u32],
    starts: &mut [u32],
    loads: &mut [u32],
    live: &mut [u32],
    phi: &mut [u32],
    spare: &mut [u32],
    roots: &mut [u32],
    places: &mut [u32],
    names: &mut [u32],
    marks: &mut [u32],
    labels: &mut [u32],
    f: &[u8],
    keys: &[u64],
    numbers: &[u32],
    offs: &[u64],
)
    requires grounded { Grounded f.now numbers.now }
    requires keys_value { keys.now ≡ keyed f.now (width f.now) }
    requires stacked { Stacked f.now (width f.now) offs.now }
    requires unread { Unread (width f.now) order.old starts.old loads.old live.old phi.old spare.old }
    requires unnamed { Unnamed (width f.now) roots.old places.old names.old }
    requires unmarked { Unmarked (width f.now) marks.old labels.old }
    ensures counted { Counted f.now (width f.now) order.new starts.new loads.new live.new phi.new spare.new }
    ensures called { Called f.now (width f.now) roots.new places.new names.new marks.new labels.new }
{
    read_tables(order, starts, loads, live, phi, spare, f, numbers);
    name_all(
        roots, places, names, spare, marks, labels, f, keys, numbers, offs, order, starts, loads,
        live, phi,
    );
    clear_four(order, starts, loads, spare);
}

// Check 7 and the tables of a sound file; a table by place has a number for each place of the file, and no more.
// Values are numbered with `order` for the heads of chains and `spare` for the rest of them.
pub fn analyse(
    keys: &mut [u64],
    numbers: &mut [u32],
    spare: &mut [u32],
    offs: &mut [u64],
    order: &mut [u32],
    starts: &mut [u32],
    loads: &mut [u32],
    live: &mut [u32],
    phi: &mut [u32],
    roots: &mut [u32],
    places: &mut [u32],
    names: &mut [u32],
    marks: &mut [u32],
    labels: &mut [u32],
    f: &[u8],
) -> u32
    requires sound { Sound f.now }
    requires blank { Blank (width f.now) (tables_of keys.old numbers.old spare.old offs.old order.old starts.old loads.old live.old phi.old roots.old places.old names.old marks.old labels.old) }
    ensures { Analysed f.now (width f.now) result
        (tables_of keys.new numbers.new spare.new offs.new order.new starts.new loads.new live.new phi.new roots.new places.new names.new marks.new labels.new) }
{
    number_values(keys, numbers, order, spare, f);
    if stack(offs, f, numbers, keys) {
        clear_numbers(keys, numbers, offs);
        return 7;
    }
    read_all(
        order, starts, loads, live, phi, spare, roots, places, names, marks, labels, f, keys,
        numbers, offs,
    );
    clear(keys);
    0
}
