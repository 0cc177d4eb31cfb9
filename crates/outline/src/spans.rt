// The table of spans: by a label's name, the lowest and the highest row that aim at it.
ghost use Rattle.std.specs.Prelude.{◌≡◌, length};
ghost use Rattle.outline.specs.Spans.{widened, note_row, note_from, spans_of, outside, aimed_out, reached_in};

use crate::rows::{LABEL, is_goto, kind_of, name_of};
use slices::get;

// The span e with row i more; i stands above the rows in it.
#[tactic(auto, unfolding(crate::specs::Spans::widened, crate::specs::Spans::low_of))]
fn widen(e: u64, i: usize) -> u64
    ensures { result ≡ widened e i }
{
    if i >= 4294967295 {
        return e;
    }
    let low = if e == 0 { i as u64 } else { e / 4294967296 };
    4294967296 * low + (i as u64 + 1)
}

// Takes row i, which is w, into the span of the name that it aims at.
#[tactic(auto, unfolding(crate::specs::Spans::note_row, definition::specs::Lists::at))]
fn note_row(spans: &mut [u64], w: u64, i: usize)
    ensures { spans.new ≡ note_row spans.old w i }
{
    if is_goto(w) {
        let m = name_of(w) as usize;
        if m < spans.len() {
            spans[m] = widen(spans[m], i);
        }
    }
}

fn note_rows(rows: &[u64], spans: &mut [u64], n: usize)
    ensures { spans.new ≡ note_from rows.now 0 n spans.old }
{
    for i in 0..n {
        note_row(spans, get(rows, i), i);
    }
}

// The spans of the first n rows.
pub fn note(rows: &[u64], spans: &mut [u64], n: usize)
    ensures { spans.new ≡ spans_of (length spans.old) rows.now n }
{
    spans.fill(0);
    note_rows(rows, spans, n);
}

// Whether the span has a row below a, or from b on.
#[tactic(auto, unfolding(crate::specs::Spans::outside, crate::specs::Spans::low_of, crate::specs::Spans::high_of))]
pub fn is_outside(e: u64, a: usize, b: usize) -> bool
    ensures { result ≡ outside e a b }
{
    e != 0 && (e / 4294967296 < a as u64 || (b as u64) < e % 4294967296)
}

// Whether the row is a label that a row below a, or from b on, aims at.
#[tactic(auto, unfolding(crate::specs::Spans::aimed_out, crate::specs::Tests::is_kind))]
pub fn aimed_out(spans: &[u64], a: usize, b: usize, w: u64) -> bool
    ensures { result ≡ aimed_out spans.now a b w }
{
    kind_of(w) == LABEL && is_outside(get(spans, name_of(w) as usize), a, b)
}

// Whether a row below a, or from b on, aims at a label from row i up to j.
pub fn reached(rows: &[u64], spans: &[u64], i: usize, j: usize, a: usize, b: usize) -> bool
    ensures { result ≡ reached_in rows.now spans.now i j a b }
{
    (i..j).any(|k| aimed_out(spans, a, b, get(rows, k)))
}
