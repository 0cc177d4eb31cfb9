// The finished lines written, and their tests counted.
ghost use Rattle.std.specs.Prelude.{◌≡◌};
ghost use Rattle.definition.specs.Listing.{tests};
ghost use Rattle.sorts.specs.Sorted.{lines_in};
ghost use Rattle.finish.specs.Finishing.{Heads};
ghost use Rattle.structure.specs.Sheets.{Written, HeadsLeft, Answered};

use crate::answers::{Counts, Kept};
use finish::finish;
use passes::sweeps::TooDeep;
use room::out::Out;
use sheet::lines::{first_of, last_of};
use sorts::lines::is_if;

// How many of the first n lines begin with `if`.
pub fn count_tests(lines: &[u64], tokens: &[u64], text: &[u8], n: usize) -> usize
    ensures { result ≡ tests (lines_in lines.now tokens.now text.now n) }
{
    let mut c = 0;
    for i in 0..n {
        let a = first_of(lines, i);
        let e = last_of(lines, i);
        c += usize::from(is_if(tokens, text, a, e));
    }
    c
}

// The lines of the rows that are left.
fn write(
    lines: &mut [u64],
    tokens: &mut [u64],
    text: &mut [u8],
    rows: &[u64],
    kept: Kept,
    from: &[u64],
    lowered: &[u64],
    source: &[u8],
) -> Counts
    requires { Heads from.now lowered.now rows.now kept.rows }
    ensures { Written from.now lowered.now source.now rows.now kept
        lines.old tokens.old text.old result lines.new tokens.new text.new }
{
    let out = finish(
        lines,
        tokens,
        text,
        Out::start(),
        rows,
        kept.rows,
        from,
        lowered,
        source,
    );
    let tests = count_tests(lines, tokens, text, out.lines);
    Counts {
        lines: out.lines,
        tokens: out.tokens,
        bytes: out.bytes,
        ifs: kept.ifs,
        loops: kept.loops,
        tests,
    }
}

// Nothing where the passes refuse.
pub fn answer(
    lines: &mut [u64],
    tokens: &mut [u64],
    text: &mut [u8],
    rows: &[u64],
    passes: Result<Kept, TooDeep>,
    from: &[u64],
    lowered: &[u64],
    source: &[u8],
) -> Result<Counts, TooDeep>
    requires { HeadsLeft from.now lowered.now rows.now passes }
    ensures { Answered from.now lowered.now source.now rows.now passes
        lines.old tokens.old text.old result lines.new tokens.new text.new }
{
    let kept = passes?;
    Ok(write(lines, tokens, text, rows, kept, from, lowered, source))
}
