// Lowering for C and other hosts.
#![tactic(auto)]

ghost use Rattle.tables.specs.Tables.{tables_of};
ghost use Rattle.lowered.specs.Lowered.{LoweredIn};

use lent::answer::Lowered;

// `ready`: whatever else the caller lends has its length. All tables end as zeros.
#[unsafe(no_mangle)]
pub extern "C" fn sorkhelaw_lowered(
    f: &[u8],
    lines: &mut [u64],
    tokens: &mut [u64],
    text: &mut [u8],
    keys: &mut [u64],
    numbers: &mut [u32],
    spare: &mut [u32],
    offs: &mut [u64],
    order: &mut [u32],
    starts: &mut [u32],
    loads: &mut [u32],
    live: &mut [u32],
    phi: &mut [u32],
    roots: &mut [u32],
    places: &mut [u32],
    names: &mut [u32],
    marks: &mut [u32],
    labels: &mut [u32],
    ready: bool,
) -> Lowered
    ensures { LoweredIn ready f.now
        (tables_of keys.old numbers.old spare.old offs.old order.old starts.old loads.old live.old phi.old roots.old places.old names.old marks.old labels.old)
        (tables_of keys.new numbers.new spare.new offs.new order.new starts.new loads.new live.new phi.new roots.new places.new names.new marks.new labels.new)
        lines.old tokens.old text.old result lines.new tokens.new text.new }
{
    lowered::sorkhelaw_lowered(
        f, lines, tokens, text, keys, numbers, spare, offs, order, starts, loads, live, phi, roots,
        places, names, marks, labels, ready,
    )
}
