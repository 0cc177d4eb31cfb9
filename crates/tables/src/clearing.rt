// Tables emptied: zeros, whatever stood there.
ghost use Rattle.std.specs.Prelude.{◌≡◌, length, replicate};
ghost use Rattle.tables.specs.Tables.{tables_of, cleared};

use zeros::clear;

pub fn clear_four(a: &mut [u32], b: &mut [u32], c: &mut [u32], d: &mut [u32])
    ensures { (a.new ≡ replicate (length a.old) 0) × (b.new ≡ replicate (length b.old) 0)
        × (c.new ≡ replicate (length c.old) 0) × (d.new ≡ replicate (length d.old) 0) }
{
    clear(a);
    clear(b);
    clear(c);
    clear(d);
}

// What stands when check 7 refuses.
pub fn clear_numbers(keys: &mut [u64], numbers: &mut [u32], offs: &mut [u64])
    ensures { (keys.new ≡ replicate (length keys.old) 0) × (numbers.new ≡ replicate (length numbers.old) 0)
        × (offs.new ≡ replicate (length offs.old) 0) }
{
    clear(keys);
    clear(numbers);
    clear(offs);
}

pub fn clear_all(
    keys: &mut [u64],
    numbers: &mut [u32],
    spare: &mut [u32],
    offs: &mut [u64],
    order: &mut [u32],
    starts: &mut [u32],
    loads: &mut [u32],
    live: &mut [u32],
    phi: &mut [u32],
    roots: &mut [u32],
    places: &mut [u32],
    names: &mut [u32],
    marks: &mut [u32],
    labels: &mut [u32],
)
    ensures { tables_of keys.new numbers.new spare.new offs.new order.new starts.new loads.new live.new phi.new roots.new places.new names.new marks.new labels.new
        ≡ cleared (tables_of keys.old numbers.old spare.old offs.old order.old starts.old loads.old live.old phi.old roots.old places.old names.old marks.old labels.old) }
{
    clear_numbers(keys, numbers, offs);
    clear_four(order, starts, loads, spare);
    clear_four(live, phi, roots, places);
    clear(names);
    clear(marks);
    clear(labels);
}
