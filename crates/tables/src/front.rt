// Of each table that has a number for each place the stages are lent the front, one number for each place of the file, so that their work goes by the file.
ghost use Rattle.analyses.specs.Sound.{Sound};
ghost use Rattle.tables.specs.Tables.{tables_of, most};
ghost use Rattle.tables.specs.Stages.{Blank, Analysed};

use crate::steps::analyse;
use places::places_of;

pub fn over_fronts(
    keys: &mut [u64],
    numbers: &mut [u32],
    spare: &mut [u32],
    offs: &mut [u64],
    order: &mut [u32],
    starts: &mut [u32],
    loads: &mut [u32],
    live: &mut [u32],
    phi: &mut [u32],
    roots: &mut [u32],
    places: &mut [u32],
    names: &mut [u32],
    marks: &mut [u32],
    labels: &mut [u32],
    f: &[u8],
) -> u32
    requires sound { Sound f.now }
    requires blank { Blank most (tables_of keys.old numbers.old spare.old offs.old order.old starts.old loads.old live.old phi.old roots.old places.old names.old marks.old labels.old) }
    ensures { Analysed f.now most result
        (tables_of keys.new numbers.new spare.new offs.new order.new starts.new loads.new live.new phi.new roots.new places.new names.new marks.new labels.new) }
{
    let n = places_of(f).total;
    analyse(
        &mut keys[..n],
        &mut numbers[..n],
        &mut spare[..n],
        &mut offs[..n],
        order,
        starts,
        loads,
        &mut live[..n],
        &mut phi[..n],
        &mut roots[..n],
        &mut places[..n],
        &mut names[..n],
        &mut marks[..n],
        labels,
        f,
    )
}
