// The printer: a function file's listing in the lent buffers, or the first of refusals 1 to 9.
#![tactic(auto)]

ghost use Rattle.tables.specs.Tables.{tables_of};
ghost use Rattle.lister.specs.Lists.{Lists};

use lent::answer::Answer;
use lent::clearing::clear_sheet;
use lent::lengths::fits;
use lowered::sorkhelaw_lowered;
use structured::structured;

// Once the tables have served lowering, two of them serve structuring: `keys` for its rows, `offs` for its spans.
pub fn sorkhelaw_list(
    f: &[u8],
    lines: &mut [u64],
    tokens: &mut [u64],
    text: &mut [u8],
    low_lines: &mut [u64],
    low_tokens: &mut [u64],
    low_text: &mut [u8],
    keys: &mut [u64],
    numbers: &mut [u32],
    spare: &mut [u32],
    offs: &mut [u64],
    order: &mut [u32],
    starts: &mut [u32],
    loads: &mut [u32],
    live: &mut [u32],
    phi: &mut [u32],
    roots: &mut [u32],
    places: &mut [u32],
    names: &mut [u32],
    marks: &mut [u32],
    labels: &mut [u32],
) -> Answer
    ensures { Lists f.now
        lines.old tokens.old text.old result lines.new tokens.new text.new
        low_lines.old low_tokens.old low_text.old low_lines.new low_tokens.new low_text.new
        (tables_of keys.old numbers.old spare.old offs.old order.old starts.old loads.old live.old phi.old roots.old places.old names.old marks.old labels.old)
        (tables_of keys.new numbers.new spare.new offs.new order.new starts.new loads.new live.new phi.new roots.new places.new names.new marks.new labels.new) }
{
    clear_sheet(lines, tokens, text);
    let ready = fits(lines.len(), tokens.len(), text.len());
    let low = sorkhelaw_lowered(
        f, low_lines, low_tokens, low_text, keys, numbers, spare, offs, order, starts, loads, live,
        phi, roots, places, names, marks, labels, ready,
    );
    let a = structured(
        lines, tokens, text, keys, offs, low_lines, low_tokens, low_text, low,
    );
    clear_sheet(low_lines, low_tokens, low_text);
    a
}
