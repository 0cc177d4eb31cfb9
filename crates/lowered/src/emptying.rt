// The tables that lowering read, emptied as far as they are filled.
ghost use Rattle.std.specs.Prelude.{◌≡◌, length, replicate};
ghost use Rattle.lowered.specs.Emptied.{filled_to, emptied, Reach};

use places::places_of;
use tables::clearing::clear_four;
use zeros::clear;

// A number for each place of the file; none where n refuses it, as all tables are zeros then.
pub fn filled(f: &[u8], n: u32) -> usize
    ensures { result ≡ filled_to f.now n }
{
    if n != 0 {
        return 0;
    }
    places_of(f).total
}

// The first n numbers of each table by place, and all labels.
pub fn clear_handed(
    numbers: &mut [u32],
    offs: &mut [u64],
    places: &mut [u32],
    names: &mut [u32],
    live: &mut [u32],
    phi: &mut [u32],
    roots: &mut [u32],
    marks: &mut [u32],
    labels: &mut [u32],
    n: usize,
)
    requires { Reach n numbers.old offs.old places.old names.old live.old phi.old roots.old marks.old }
    ensures { (numbers.new ≡ emptied n numbers.old)
        × (offs.new ≡ emptied n offs.old)
        × (places.new ≡ emptied n places.old)
        × (names.new ≡ emptied n names.old)
        × (live.new ≡ emptied n live.old)
        × (phi.new ≡ emptied n phi.old)
        × (roots.new ≡ emptied n roots.old)
        × (marks.new ≡ emptied n marks.old)
        × (labels.new ≡ replicate (length labels.old) 0) }
{
    clear(&mut offs[..n]);
    clear_four(
        &mut numbers[..n],
        &mut places[..n],
        &mut names[..n],
        &mut live[..n],
    );
    clear_four(&mut phi[..n], &mut roots[..n], &mut marks[..n], labels);
}
