// `drop_unused_labels` on rows.
#![tactic(auto)]

ghost use Rattle.std.specs.Prelude.{◌≡◌, ◌≤◌, length};
ghost use Rattle.passes.specs.Dropping.{kept_row, gathered, gather_from, drop_rows};

use outline::forming::clear;
use outline::rows::{LABEL, kind_of};
use outline::spans::{aimed_out, note};
use slices::get;

// Whether the row is no label, or one that a row aims at.
#[tactic(auto, unfolding(passes::specs::Dropping::kept_row, outline::specs::Tests::is_kind))]
fn is_kept(spans: &[u64], n: usize, w: u64) -> bool
    ensures { result ≡ kept_row spans.now n w }
{
    kind_of(w) != LABEL || aimed_out(spans, n, n, w)
}

// Moves the rows that are kept of the first m together; how many they are.
fn gather(rows: &mut [u64], spans: &[u64], n: usize, m: usize) -> usize
    requires { m ≤ length rows.old }
    ensures { (gathered result rows.new ≡ gather_from (kept_row spans.now n) rows.old 0 m 0) × (result ≤ m) }
{
    let mut c = 0;
    for i in 0..m {
        let w = get(rows, i);
        if is_kept(spans, n, w) {
            rows[c] = w;
            c += 1;
        }
    }
    c
}

// Drops the labels that no row aims at from the first n rows; how many are left.
pub fn drop_unused_labels(rows: &mut [u64], spans: &mut [u64], n: usize) -> usize
    ensures { gathered result rows.new ≡ drop_rows rows.old (length spans.old) n }
{
    note(rows, spans, n);
    let m = n.min(rows.len());
    let c = gather(rows, spans, n, m);
    clear(rows, c, m);
    c
}
