// The condition of `if (C) goto L;`, found in the buffers.
ghost use Rattle.std.specs.Prelude.{◌≡◌, ◌+◌, length};
ghost use Rattle.definition.specs.Texts.{txt};
ghost use Rattle.definition.specs.Tokens.{keyword};
ghost use Rattle.definition.specs.Sorts.{is_tok};
ghost use Rattle.definition.specs.Negate.{before_goto, cond_of};
ghost use Rattle.sheet.specs.Buffers.{start_at, end_at, token_at, tokens_in};
ghost use Rattle.clips.specs.Clip.{clip_from, clip_to, clip as clip_of, Rises, Orderly, Opened, Closed};

use sheet::ranges::{begins_between, is_between};
use sheet::tokens::{end_at, place, start_at, token_is};

// The tokens at the places 1 to `count` - 1 behind `first`.
#[derive(Clone, Copy)]
pub struct Clip {
    pub first: usize,
    pub count: usize,
    // The first byte of the first of them, and the end of the last.
    pub from: usize,
    pub to: usize,
}

const KEYWORD: u32 = 3;

fn is_goto(tokens: &[u64], text: &[u8], a: usize, k: usize) -> bool
    ensures { result ≡ is_tok (keyword (txt "goto")) (token_at tokens.now text.now (a + k)) }
{
    token_is(tokens, text, place(tokens, a, k), KEYWORD, b"goto")
}

// How many tokens stand before the first `goto`.
fn before_goto(tokens: &[u64], text: &[u8], a: usize, n: usize) -> usize
    ensures { result ≡ length (before_goto (tokens_in tokens.now text.now a n)) }
{
    for k in 0..n {
        if is_goto(tokens, text, a, k) {
            return k;
        }
    }
    n
}

// Behind every leading ` (`.
fn after_opens(text: &[u8], from: usize, to: usize) -> usize
    ensures { Opened text.now from to result }
{
    let mut i = from;
    // Each step is of two bytes, and the range is left where another text stands, so this is no range of numbers.
    while begins_between(text, i, to, b" (") {
        i += 2;
    }
    i
}

// Before one trailing `) `.
fn before_close(text: &[u8], from: usize, to: usize) -> usize
    ensures { Closed text.now from to result }
{
    let e = to.min(text.len());
    if e.saturating_sub(from) < 2 {
        return to;
    }
    if is_between(text, e - 2, e, b") ") {
        e - 2
    } else {
        to
    }
}

fn token_start(tokens: &[u64], a: usize, k: usize) -> usize
    ensures { result ≡ start_at tokens.now (a + k) }
{
    start_at(tokens, place(tokens, a, k))
}

fn token_end(tokens: &[u64], a: usize, k: usize) -> usize
    ensures { result ≡ end_at tokens.now (a + k) }
{
    end_at(tokens, place(tokens, a, k))
}

// Where the bytes of the token at place k begin.
#[tactic(auto, unfolding(crate::specs::Clip::clip_from))]
pub fn clip_from(tokens: &[u64], c: Clip, k: usize) -> usize
    ensures { result ≡ clip_from tokens.now c k }
{
    if k == 1 {
        c.from
    } else {
        token_start(tokens, c.first, k)
    }
}

// Where they end.
#[tactic(auto, unfolding(crate::specs::Clip::clip_to))]
pub fn clip_to(tokens: &[u64], c: Clip, k: usize) -> usize
    ensures { result ≡ clip_to tokens.now c k }
{
    if c.count != 0 && k == c.count - 1 {
        return c.to;
    }
    token_end(tokens, c.first, k)
}

// The condition of the jump that is n tokens from place a on.
pub fn condition(tokens: &[u64], text: &[u8], a: usize, n: usize) -> Clip
    ensures { (clip_of tokens.now text.now result ≡ cond_of (tokens_in tokens.now text.now a n))
        × (Rises tokens.now a n → Orderly tokens.now text.now result) }
{
    let m = before_goto(tokens, text, a, n);
    if m < 2 {
        return Clip {
            first: a,
            count: 0,
            from: 0,
            to: 0,
        };
    }
    let from = after_opens(text, token_start(tokens, a, 1), token_end(tokens, a, 1));
    let open = Clip {
        first: a,
        count: m,
        from,
        to: 0,
    };
    let start = clip_from(tokens, open, m - 1);
    let to = before_close(text, start, token_end(tokens, a, m - 1));
    Clip {
        first: a,
        count: m,
        from,
        to,
    }
}
