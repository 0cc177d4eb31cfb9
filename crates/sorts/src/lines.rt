// What the passes read off a line's tokens, which stand from place a up to place e.
ghost use Rattle.std.specs.Prelude.{◌≡◌, ◌-◌};
ghost use Rattle.definition.specs.Texts.{txt};
ghost use Rattle.definition.specs.Tokens.{keyword};
ghost use Rattle.definition.specs.Sorts.{is_label, first_is, goto_target};
ghost use Rattle.sheet.specs.Buffers.{tokens_in};
ghost use Rattle.sorts.specs.Places.{found, first_place, goto_at, symbol_at, target_text};

use sheet::ranges::is_between;
use sheet::tokens::{end_at, kind_at, start_at, token_is};

const KEYWORD: u32 = 3;

const SYMBOL: u32 = 4;

// Whether the line is a Symbol and `:`.
pub fn is_label(tokens: &[u64], text: &[u8], a: usize, e: usize) -> bool
    ensures { result ≡ is_label (tokens_in tokens.now text.now a (e - a)) }
{
    if e.saturating_sub(a) != 2 {
        return false;
    }
    kind_at(tokens, a) == SYMBOL
        && is_between(text, start_at(tokens, a + 1), end_at(tokens, a + 1), b":")
}

// Whether it begins with `if`.
pub fn is_if(tokens: &[u64], text: &[u8], a: usize, e: usize) -> bool
    ensures { result ≡ first_is (keyword (txt "if")) (tokens_in tokens.now text.now a (e - a)) }
{
    a < e && token_is(tokens, text, a, KEYWORD, b"if")
}

// The first `goto`.
fn goto_at(tokens: &[u64], text: &[u8], a: usize, e: usize) -> Option<usize>
    ensures { result ≡ found e (first_place (goto_at tokens.now text.now) a (e - a)) }
{
    (a..e).find(|j| token_is(tokens, text, *j, KEYWORD, b"goto"))
}

// The first Symbol.
fn symbol_at(tokens: &[u64], a: usize, e: usize) -> Option<usize>
    ensures { result ≡ found e (first_place (symbol_at tokens.now) a (e - a)) }
{
    (a..e).find(|j| kind_at(tokens, *j) == SYMBOL)
}

// The place of the token that a goto names: the first Symbol behind the first `goto`.
pub fn goto_target(tokens: &[u64], text: &[u8], a: usize, e: usize) -> Option<usize>
    ensures { target_text tokens.now text.now result
        ≡ goto_target (tokens_in tokens.now text.now a (e - a)) }
{
    let g = goto_at(tokens, text, a, e)?;
    symbol_at(tokens, g + 1, e)
}
