// The lowered lines of a file, in scratch, or the first of refusals 1 to 8.
#![tactic(auto)]

mod emptying;
mod passed;

ghost use Rattle.tables.specs.Tables.{tables_of};
ghost use Rattle.lowered.specs.Lowered.{LoweredIn};

use crate::emptying::{clear_handed, filled};
use crate::passed::lower_passed;
use lent::answer::Lowered;
use lent::clearing::clear_sheet;
use lent::lengths::{first_refusal, low_fits};
use tables::sorkhelaw_tables;

// `ready`: whatever else the caller lends has its length. All tables end as zeros.
pub fn sorkhelaw_lowered(
    f: &[u8],
    lines: &mut [u64],
    tokens: &mut [u64],
    text: &mut [u8],
    keys: &mut [u64],
    numbers: &mut [u32],
    spare: &mut [u32],
    offs: &mut [u64],
    order: &mut [u32],
    starts: &mut [u32],
    loads: &mut [u32],
    live: &mut [u32],
    phi: &mut [u32],
    roots: &mut [u32],
    places: &mut [u32],
    names: &mut [u32],
    marks: &mut [u32],
    labels: &mut [u32],
    ready: bool,
) -> Lowered
    ensures { LoweredIn ready f.now
        (tables_of keys.old numbers.old spare.old offs.old order.old starts.old loads.old live.old phi.old roots.old places.old names.old marks.old labels.old)
        (tables_of keys.new numbers.new spare.new offs.new order.new starts.new loads.new live.new phi.new roots.new places.new names.new marks.new labels.new)
        lines.old tokens.old text.old result lines.new tokens.new text.new }
{
    clear_sheet(lines, tokens, text);
    let judged = sorkhelaw_tables(
        f, keys, numbers, spare, offs, order, starts, loads, live, phi, roots, places, names,
        marks, labels,
    );
    let n = first_refusal(
        ready,
        low_fits(lines.len(), tokens.len(), text.len()),
        judged,
    );
    let r = lower_passed(
        lines, tokens, text, f, n, numbers, offs, places, names, live, phi, roots, marks, labels,
    );
    let k = filled(f, judged);
    clear_handed(
        numbers, offs, places, names, live, phi, roots, marks, labels, k,
    );
    r
}
