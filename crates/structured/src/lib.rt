// The lowered lines structured into the lent buffers, where there are any.
#![tactic(auto)]

ghost use Rattle.structured.specs.Structured.{Lowers, Answers};

use lent::answer::{Answer, Lowered, answer_of, refused};
use structure::structure;

// What structuring needs: a row for each line and each conditional jump, and a span for each line and one more.
// It empties all its spans after each region, so it is lent no more of them.
const ROWS: usize = 1536;

const SPANS: usize = 769;

pub fn structured(
    lines: &mut [u64],
    tokens: &mut [u64],
    text: &mut [u8],
    rows: &mut [u64],
    spans: &mut [u64],
    from: &[u64],
    lowered: &[u64],
    source: &[u8],
    low: Lowered,
) -> Answer
    requires { Lowers lines.old tokens.old text.old rows.old spans.old from.now lowered.now source.now low }
    ensures { Answers lines.old tokens.old text.old rows.old spans.old
        from.now lowered.now source.now low result
        lines.new tokens.new text.new rows.new spans.new }
{
    if low.number != 0 {
        return refused(low.number);
    }
    answer_of(structure(
        lines,
        tokens,
        text,
        &mut rows[..ROWS],
        &mut spans[..SPANS],
        from,
        lowered,
        source,
        low.lines,
    ))
}
