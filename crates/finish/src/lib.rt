// The finished lines, written once.
#![tactic(auto)]

pub mod kinds;
pub mod rows;

ghost use Rattle.std.specs.Prelude.{◌≡◌, [], ◌∷◌};
ghost use Rattle.room.specs.Room.{sheet_of, write_all, seen_sheet};
ghost use Rattle.finish.specs.Finishing.{row_line, lines_in, HeadedRow, Heads};

use crate::kinds::put_row;
use crate::rows::{count_of, origin_of, row_address, row_indent};
use outline::rows::kind_of;
use room::line::end_line;
use room::out::Out;
use sheet::lines::first_of;
use slices::get;

// The line of the row w.
fn write_row(
    lines: &mut [u64],
    tokens: &mut [u64],
    text: &mut [u8],
    out: Out,
    from: &[u64],
    lowered: &[u64],
    source: &[u8],
    w: u64,
) -> Out
    requires { HeadedRow from.now lowered.now w }
    ensures { seen_sheet (sheet_of lines.new tokens.new text.new result)
        ≡ seen_sheet (write_all (sheet_of lines.old tokens.old text.old out) (row_line from.now lowered.now source.now w ∷ [])) }
{
    let i = origin_of(w);
    let kind = kind_of(w);
    let a = first_of(from, i);
    let n = count_of(from, i);
    let out = put_row(tokens, text, out, lowered, source, kind, a, n);
    let indent = row_indent(from, w, out.tokens as u64);
    let at = row_address(from, w);
    end_line(lines, out, indent, at)
}

// The lines of the first n rows, of the lowered lines that stand in `from`, `lowered` and `source`.
pub fn finish(
    lines: &mut [u64],
    tokens: &mut [u64],
    text: &mut [u8],
    out: Out,
    rows: &[u64],
    n: usize,
    from: &[u64],
    lowered: &[u64],
    source: &[u8],
) -> Out
    requires { Heads from.now lowered.now rows.now n }
    ensures { seen_sheet (sheet_of lines.new tokens.new text.new result)
        ≡ seen_sheet (write_all (sheet_of lines.old tokens.old text.old out) (lines_in from.now lowered.now source.now rows.now n)) }
{
    let mut out = out;
    for i in 0..n {
        let w = get(rows, i);
        out = write_row(lines, tokens, text, out, from, lowered, source, w);
    }
    out
}
