// From lowered lines in buffers to the finished lines in the lent buffers.
#![tactic(auto)]

pub mod answers;
mod passing;
mod writing;

ghost use Rattle.structure.specs.Lowered.{Known, Finishes};

use crate::answers::Counts;
use crate::passing::{passes_of, wipe};
use crate::writing::answer;
use passes::sweeps::TooDeep;
use sorts::sorts;

// The finished lines of the n lowered lines that stand in `from`, `lowered` and `source`. Both tables are zeros behind it.
pub fn structure(
    lines: &mut [u64],
    tokens: &mut [u64],
    text: &mut [u8],
    rows: &mut [u64],
    spans: &mut [u64],
    from: &[u64],
    lowered: &[u64],
    source: &[u8],
    n: usize,
) -> Result<Counts, TooDeep>
    requires { Known from.now lowered.now source.now rows.old spans.old n }
    ensures { Finishes from.now lowered.now source.now rows.old spans.old n
        lines.old tokens.old text.old result
        lines.new tokens.new text.new rows.new spans.new }
{
    sorts(rows, from, lowered, source, n);
    let passes = passes_of(rows, spans, n);
    let r = answer(lines, tokens, text, rows, passes, from, lowered, source);
    wipe(rows, spans);
    r
}
