// Tokens as they are, into another room.
ghost use Rattle.std.specs.Prelude.{◌≡◌, [], ◌∷◌, ◌+◌, ◌-◌};
ghost use Rattle.definition.specs.Lists.{only};
ghost use Rattle.definition.specs.Tokens.{tok};
ghost use Rattle.definition.specs.Negate.{cond_of};
ghost use Rattle.room.specs.Room.{room_of, emit, emit_all, seen};
ghost use Rattle.sheet.specs.Buffers.{token_at, tokens_in};
ghost use Rattle.sheet.specs.Ranges.{between};
ghost use Rattle.clips.specs.Clip.{clip_at, has_text, clip as clip_of};

use crate::clip::{Clip, clip_from, clip_to, condition};
use pieces::from_file::put_part;
use room::out::Out;
use sheet::ranges::none_between;
use sheet::tokens::{end_at, kind_at, place, start_at};

// A range of the lowered text.
pub fn put_between(
    tokens: &mut [u64],
    text: &mut [u8],
    out: Out,
    kind: u32,
    source: &[u8],
    from: usize,
    to: usize,
) -> Out
    ensures { room_of tokens.new text.new result
        ≡ emit (room_of tokens.old text.old out) (tok kind (between source.now from to)) }
{
    put_part(
        tokens,
        text,
        out,
        kind,
        source,
        from,
        to.saturating_sub(from),
    )
}

// The token k places behind a.
fn put_at(
    tokens: &mut [u64],
    text: &mut [u8],
    out: Out,
    lowered: &[u64],
    source: &[u8],
    a: usize,
    k: usize,
) -> Out
    ensures { room_of tokens.new text.new result
        ≡ emit (room_of tokens.old text.old out) (token_at lowered.now source.now (a + k)) }
{
    let j = place(lowered, a, k);
    let kind = kind_at(lowered, j);
    let from = start_at(lowered, j);
    let to = end_at(lowered, j);
    put_between(tokens, text, out, kind, source, from, to)
}

// n tokens from place a on.
pub fn put_line(
    tokens: &mut [u64],
    text: &mut [u8],
    out: Out,
    lowered: &[u64],
    source: &[u8],
    a: usize,
    n: usize,
) -> Out
    ensures { seen (room_of tokens.new text.new result)
        ≡ seen (emit_all (room_of tokens.old text.old out) (tokens_in lowered.now source.now a n)) }
{
    let mut out = out;
    for k in 0..n {
        out = put_at(tokens, text, out, lowered, source, a, k);
    }
    out
}

// The token of a condition at place k, unless it is empty.
pub fn put_clip_at(
    tokens: &mut [u64],
    text: &mut [u8],
    out: Out,
    lowered: &[u64],
    source: &[u8],
    c: Clip,
    k: usize,
) -> Out
    ensures { seen (room_of tokens.new text.new result)
        ≡ seen (emit_all (room_of tokens.old text.old out) (only has_text (clip_at lowered.now source.now c k ∷ []))) }
{
    let from = clip_from(lowered, c, k);
    let to = clip_to(lowered, c, k);
    if none_between(source, from, to) {
        return out;
    }
    let kind = kind_at(lowered, place(lowered, c.first, k));
    put_between(tokens, text, out, kind, source, from, to)
}

// A condition's tokens.
pub fn put_clip(
    tokens: &mut [u64],
    text: &mut [u8],
    out: Out,
    lowered: &[u64],
    source: &[u8],
    c: Clip,
) -> Out
    ensures { seen (room_of tokens.new text.new result)
        ≡ seen (emit_all (room_of tokens.old text.old out) (clip_of lowered.now source.now c)) }
{
    let mut out = out;
    for k in 1..c.count {
        out = put_clip_at(tokens, text, out, lowered, source, c, k);
    }
    out
}

// The condition of the jump that is n tokens from place a on.
pub fn put_condition(
    tokens: &mut [u64],
    text: &mut [u8],
    out: Out,
    lowered: &[u64],
    source: &[u8],
    a: usize,
    n: usize,
) -> Out
    ensures { seen (room_of tokens.new text.new result)
        ≡ seen (emit_all (room_of tokens.old text.old out) (cond_of (tokens_in lowered.now source.now a n))) }
{
    let c = condition(lowered, source, a, n);
    put_clip(tokens, text, out, lowered, source, c)
}
