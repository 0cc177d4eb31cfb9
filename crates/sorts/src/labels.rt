// The label that a goto names.
ghost use Rattle.std.specs.Prelude.{◌≡◌};
ghost use Rattle.definition.specs.Texts.{same};
ghost use Rattle.definition.specs.Passes.{named};
ghost use Rattle.sheet.specs.Buffers.{text_at, line_in};
ghost use Rattle.sorts.specs.Sorted.{number_of, label_number, lines_in};

use crate::lines::is_label;
use sheet::lines::{first_of, last_of};
use sheet::ranges::{is_between, part};
use sheet::tokens::{end_at, start_at};

// Whether the tokens at two places have the same text.
fn same_name(tokens: &[u64], text: &[u8], i: usize, j: usize) -> bool
    ensures { result
        ≡ same (text_at tokens.now text.now i) (text_at tokens.now text.now j) }
{
    let name = part(text, start_at(tokens, j), end_at(tokens, j));
    is_between(text, start_at(tokens, i), end_at(tokens, i), name)
}

// Whether line i is the label that the token at place p names.
fn is_named(lines: &[u64], tokens: &[u64], text: &[u8], i: usize, p: usize) -> bool
    ensures { result
        ≡ named (text_at tokens.now text.now p) (line_in lines.now tokens.now text.now i) }
{
    let a = first_of(lines, i);
    is_label(tokens, text, a, last_of(lines, i)) && same_name(tokens, text, a, p)
}

// The first of n lines that is the label.
pub fn find_label(lines: &[u64], tokens: &[u64], text: &[u8], n: usize, p: usize) -> Option<usize>
    ensures { number_of result
        ≡ label_number (text_at tokens.now text.now p) (lines_in lines.now tokens.now text.now n) }
{
    (0..n).find(|i| is_named(lines, tokens, text, *i, p))
}
