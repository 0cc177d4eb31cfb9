// Lowering, where nothing before it refused the file.
ghost use Rattle.std.specs.Prelude.{◌≡◌, length};
ghost use Rattle.lowered.specs.Lowered.{low_of, low_in, up_to8};
ghost use Rattle.lowered.specs.Passed.{Passes};

use lent::answer::Lowered;
use lent::clearing::clear_sheet;
use lower::lower;

// The text's place among the sections of edition 1.
const TEXT: u32 = 8;

// n is the refusal so far, or 0.
pub fn lower_passed(
    lines: &mut [u64],
    tokens: &mut [u64],
    text: &mut [u8],
    f: &[u8],
    n: u32,
    numbers: &[u32],
    offs: &[u64],
    places: &[u32],
    names: &[u32],
    live: &[u32],
    phi: &[u32],
    roots: &[u32],
    marks: &[u32],
    labels: &[u32],
) -> Lowered
    requires { Passes f.now n lines.old tokens.old text.old numbers.now offs.now places.now names.now live.now phi.now roots.now marks.now labels.now }
    ensures { low_of result lines.new tokens.new text.new
        ≡ low_in (length lines.old) (length tokens.old) (length text.old) f.now (up_to8 f.now n) }
{
    if n != 0 {
        return Lowered {
            number: n,
            lines: 0,
        };
    }
    let out = lower(
        lines, tokens, text, f, TEXT, numbers, offs, places, names, live, phi, roots, marks, labels,
    );
    if out.full {
        clear_sheet(lines, tokens, text);
        return Lowered {
            number: 8,
            lines: 0,
        };
    }
    Lowered {
        number: 0,
        lines: out.lines,
    }
}
