// The three passes, one behind the other, on the two tables.
ghost use Rattle.std.specs.Prelude.{◌≡◌, length, replicate};
ghost use Rattle.structure.specs.Runs.{ran, ran_of};

use crate::answers::Kept;
use dropping::drop_unused_labels;
use ifs::structure_ifs;
use loops::structure_do_while;
use passes::sweeps::TooDeep;

// Structures the first n rows.
pub fn passes_of(rows: &mut [u64], spans: &mut [u64], n: usize) -> Result<Kept, TooDeep>
    ensures { ran result rows.new ≡ ran_of rows.old spans.old n }
{
    let ifs = structure_ifs(rows, spans, n)?;
    let loops = structure_do_while(rows, spans, ifs.rows)?;
    let left = drop_unused_labels(rows, spans, loops.rows);
    Ok(Kept {
        rows: left,
        ifs: ifs.regions,
        loops: loops.regions,
    })
}

// Zeros in both tables.
pub fn wipe(rows: &mut [u64], spans: &mut [u64])
    ensures { (rows.new ≡ replicate (length rows.old) 0) × (spans.new ≡ replicate (length spans.old) 0) }
{
    rows.fill(0);
    spans.fill(0);
}
