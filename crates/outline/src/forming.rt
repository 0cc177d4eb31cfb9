// What forming a region does to the rows: lines raised, a closing brace put in.
ghost use Rattle.std.specs.Prelude.{◌≡◌, ◌≤◌, ◌<◌, length};
ghost use Rattle.outline.specs.Forming.{raised, turned, nought, changed_in, inserted, deep_in};

use crate::rows::{indent_of, kind_of, too_deep};
use slices::get;

// The row inside one brace more.
#[tactic(auto, unfolding(crate::specs::Forming::raised))]
pub fn up(w: u64) -> u64
    ensures { result ≡ raised w }
{
    if indent_of(w) < 4095 { w + 16 } else { w }
}

// The row with v more for its kind.
#[tactic(auto, unfolding(crate::specs::Forming::turned))]
pub fn turn(w: u64, v: u64) -> u64
    requires { v < 8 }
    ensures { result ≡ turned v w }
{
    if kind_of(w) < 8 { w + v } else { w }
}

// Each row from a up to b inside one brace more.
#[tactic(auto, unfolding(crate::specs::Forming::changed_in))]
pub fn raise(rows: &mut [u64], a: usize, b: usize)
    requires { (a ≤ b) × (b ≤ length rows.old) }
    ensures { rows.new ≡ changed_in raised rows.old a b }
{
    for row in rows[a..b].iter_mut() {
        *row = up(*row);
    }
}

// Zeros from a up to b.
pub fn clear(s: &mut [u64], a: usize, b: usize)
    requires { (a ≤ b) × (b ≤ length s.old) }
    ensures { s.new ≡ changed_in nought s.old a b }
{
    s[a..b].fill(0);
}

// Puts v at j, and the rows from j up to n one place on.
pub fn insert_row(rows: &mut [u64], n: usize, j: usize, v: u64)
    requires { (j ≤ n) × (n < length rows.old) }
    ensures { rows.new ≡ inserted rows.old n j v }
{
    rows.copy_within(j..n, j + 1);
    rows[j] = v;
}

// Whether a row from i up to j, raised, would stand too deep.
pub fn deep_in(rows: &[u64], i: usize, j: usize) -> bool
    ensures { result ≡ deep_in rows.now i j }
{
    (i..j).any(|k| too_deep(get(rows, k)))
}
