// Ranges of a text by their two ends. What is outside the text is empty.
ghost use Rattle.std.specs.Prelude.{◌≡◌};
ghost use Rattle.definition.specs.Texts.{same, is_empty, begins, contains};
ghost use Rattle.sheet.specs.Ranges.{between};

use words::{begins_at, contains_text, same_text};

// The range, as much of it as is in the text.
pub fn part(text: &[u8], from: usize, to: usize) -> &[u8]
    ensures { result.now ≡ between text.now from to }
{
    let e = to.min(text.len());
    let s = from.min(e);
    &text[s..e]
}

pub fn is_between(text: &[u8], from: usize, to: usize, w: &[u8]) -> bool
    ensures { result ≡ same (between text.now from to) w.now }
{
    same_text(part(text, from, to), w)
}

pub fn begins_between(text: &[u8], from: usize, to: usize, w: &[u8]) -> bool
    ensures { result ≡ begins w.now (between text.now from to) }
{
    begins_at(w, part(text, from, to), 0)
}

pub fn contains_between(text: &[u8], from: usize, to: usize, w: &[u8]) -> bool
    ensures { result ≡ contains w.now (between text.now from to) }
{
    contains_text(w, part(text, from, to))
}

// Whether nothing is in the range.
pub fn none_between(text: &[u8], from: usize, to: usize) -> bool
    ensures { result ≡ is_empty (between text.now from to) }
{
    to.min(text.len()) <= from
}
