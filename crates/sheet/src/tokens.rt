// Tokens by their places. Total: behind the last there are tokens of kind 0 with no text.
ghost use Rattle.std.specs.Prelude.{◌≡◌, ◌+◌};
ghost use Rattle.definition.specs.Tokens.{tok};
ghost use Rattle.definition.specs.Sorts.{is_tok};
ghost use Rattle.sheet.specs.Buffers.{kind_at, start_at, end_at, token_at};
ghost use Rattle.sheet.specs.Ranges.{SamePlace};

use crate::ranges::is_between;
use slices::get;

#[tactic(auto, unfolding(crate::specs::Buffers::kind_at))]
pub fn kind_at(tokens: &[u64], j: usize) -> u32
    ensures { result ≡ kind_at tokens.now j }
{
    (get(tokens, j) % 8) as u32
}

pub fn end_at(tokens: &[u64], j: usize) -> usize
    ensures { result ≡ end_at tokens.now j }
{
    (get(tokens, j) / 8) as usize
}

#[tactic(auto, unfolding(crate::specs::Buffers::start_of))]
pub fn start_at(tokens: &[u64], j: usize) -> usize
    ensures { result ≡ start_at tokens.now j }
{
    if j == 0 { 0 } else { end_at(tokens, j - 1) }
}

// Whether the token at place j is this one.
#[tactic(auto, unfolding(definition::specs::Sorts::is_tok, crate::specs::Buffers::token_at, crate::specs::Buffers::text_at, crate::specs::Ranges::between))]
pub fn token_is(tokens: &[u64], text: &[u8], j: usize, kind: u32, bytes: &[u8]) -> bool
    ensures { result ≡ is_tok (tok kind bytes.now) (token_at tokens.now text.now j) }
{
    kind_at(tokens, j) == kind && is_between(text, start_at(tokens, j), end_at(tokens, j), bytes)
}

// The place k behind a, or where that is no number of 64 bits, another that is behind all tokens too.
pub fn place(tokens: &[u64], a: usize, k: usize) -> usize
    ensures { SamePlace tokens.now result (a + k) }
{
    let n = tokens.len();
    if n < a {
        return a;
    }
    if n - a < k {
        return n + 1;
    }
    a + k
}
