// The structuring passes, with their counts as numbers.
ghost use Rattle.std.specs.Prelude.{◌≡◌};
ghost use Rattle.structure.specs.Lowered.{Known};
ghost use Rattle.probe.specs.Numbered.{counted, Numbered, Exported};

use passes::sweeps::TooDeep;
use structure::answers::Counts;
use structure::structure;

// How many counts there are.
const COUNTS: usize = 6;

// The six counts in front, where there is room for them.
fn put_counts(counts: &mut [u64], c: Counts)
    ensures { counts.new ≡ counted counts.old c }
{
    if counts.len() < COUNTS {
        return;
    }
    counts[..COUNTS].copy_from_slice(&[
        c.lines as u64,
        c.tokens as u64,
        c.bytes as u64,
        c.ifs as u64,
        c.loops as u64,
        c.tests as u64,
    ]);
}

// 0, or 9, with zeros for counts.
#[tactic(auto, unfolding(crate::specs::Numbered::number_of, crate::specs::Numbered::counts_of))]
fn number_of(counts: &mut [u64], r: Result<Counts, TooDeep>) -> u32
    ensures { Numbered r counts.old result counts.new }
{
    match r {
        Ok(c) => {
            put_counts(counts, c);
            0
        }
        Err(TooDeep) => {
            put_counts(
                counts,
                Counts {
                    lines: 0,
                    tokens: 0,
                    bytes: 0,
                    ifs: 0,
                    loops: 0,
                    tests: 0,
                },
            );
            9
        }
    }
}

#[unsafe(no_mangle)]
pub extern "C" fn sorkhelaw_structure(
    lines: &mut [u64],
    tokens: &mut [u64],
    text: &mut [u8],
    rows: &mut [u64],
    spans: &mut [u64],
    counts: &mut [u64],
    from: &[u64],
    lowered: &[u64],
    source: &[u8],
    n: usize,
) -> u32
    requires { Known from.now lowered.now source.now rows.old spans.old n }
    ensures { Exported from.now lowered.now source.now rows.old spans.old n
        lines.old tokens.old text.old counts.old result
        lines.new tokens.new text.new counts.new rows.new spans.new }
{
    let r = structure(lines, tokens, text, rows, spans, from, lowered, source, n);
    number_of(counts, r)
}
