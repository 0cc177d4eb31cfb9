// The analyses for C and other hosts.
#![tactic(auto)]

ghost use Rattle.tables.specs.Tables.{tables_of};
ghost use Rattle.tables.specs.Filled.{Filled};

// The first refusal of 1 to 7 with zeros in all tables, or 0 with what the file's values and blocks are.
#[unsafe(no_mangle)]
pub extern "C" fn sorkhelaw_tables(
    f: &[u8],
    keys: &mut [u64],
    numbers: &mut [u32],
    spare: &mut [u32],
    offs: &mut [u64],
    order: &mut [u32],
    starts: &mut [u32],
    loads: &mut [u32],
    live: &mut [u32],
    phi: &mut [u32],
    roots: &mut [u32],
    places: &mut [u32],
    names: &mut [u32],
    marks: &mut [u32],
    labels: &mut [u32],
) -> u32
    ensures { Filled f.now result
        (tables_of keys.old numbers.old spare.old offs.old order.old starts.old loads.old live.old phi.old roots.old places.old names.old marks.old labels.old)
        (tables_of keys.new numbers.new spare.new offs.new order.new starts.new loads.new live.new phi.new roots.new places.new names.new marks.new labels.new) }
{
    tables::sorkhelaw_tables(
        f, keys, numbers, spare, offs, order, starts, loads, live, phi, roots, places, names,
        marks, labels,
    )
}
