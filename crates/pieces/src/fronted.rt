// A writer of a part of the file behind a front.
ghost use Rattle.std.specs.Prelude.{◌++◌};
ghost use Rattle.definition.specs.Words.{part};
ghost use Rattle.leaf.specs.Leaf.{Leaf};

use leaf::{NoRoom, Wrote, copy, copy_part};

// Writes n bytes of f from `at` on behind a front. The part goes first, so that a refusal touches nothing.
pub fn part_behind(dst: &mut [u8], front: &[u8], f: &[u8], at: usize, n: usize) -> Wrote
    ensures { Leaf (front.now ++ part f.now at n) dst.old result dst.new }
{
    let k = front.len();
    if dst.len() < k {
        return Err(NoRoom);
    }
    let m = copy_part(&mut dst[k..], f, at, n)?;
    copy(dst, front)?;
    Ok(k + m)
}
