// A condition negated.
ghost use Rattle.std.specs.Prelude.{◌≡◌, not, ◌&&◌, [], ◌∷◌, ◌++◌, ◌-◌, eqb};
ghost use Rattle.definition.specs.Texts.{txt, contains};
ghost use Rattle.definition.specs.Lists.{only};
ghost use Rattle.definition.specs.Tokens.{punct};
ghost use Rattle.definition.specs.Negate.{negate};
ghost use Rattle.room.specs.Room.{room_of, emit_all, seen};
ghost use Rattle.sheet.specs.Ranges.{between};
ghost use Rattle.clips.specs.Clip.{clip_at, has_text, texts, clip as clip_of, Orderly};
ghost use Rattle.negate.specs.Flipping.{flip_of, flipped};

use clips::clip::{Clip, clip_from, clip_to};
use clips::copies::{put_clip, put_clip_at};
use comparisons::looks::look_over;
use comparisons::signs::put_opposite;
use pieces::put::put;
use room::out::Out;
use sheet::ranges::{contains_between, none_between};

const PUNCT: u32 = 6;

// Whether the comparison is flipped, and not all of the condition wrapped: there is one, and no `&&` or `||`.
fn flips(source: &[u8], c: Clip, hits: usize) -> bool
    ensures { result ≡ (eqb hits 1 && not (contains (txt "&&") (between source.now c.from c.to)) && not (contains (txt "||") (between source.now c.from c.to))) }
{
    hits == 1
        && !contains_between(source, c.from, c.to, b"&&")
        && !contains_between(source, c.from, c.to, b"||")
}

// The token at place k with its comparison flipped, unless it is empty.
fn put_flip(
    tokens: &mut [u64],
    text: &mut [u8],
    out: Out,
    lowered: &[u64],
    source: &[u8],
    c: Clip,
    k: usize,
) -> Out
    ensures { seen (room_of tokens.new text.new result)
        ≡ seen (emit_all (room_of tokens.old text.old out) (only has_text (flip_of (clip_at lowered.now source.now c k) ∷ []))) }
{
    let from = clip_from(lowered, c, k);
    let to = clip_to(lowered, c, k);
    if none_between(source, from, to) {
        return out;
    }
    put_opposite(tokens, text, out, source, from, to)
}

// The token at place k, flipped where that is place p.
fn put_flip_at(
    tokens: &mut [u64],
    text: &mut [u8],
    out: Out,
    lowered: &[u64],
    source: &[u8],
    c: Clip,
    p: usize,
    k: usize,
) -> Out
    ensures { seen (room_of tokens.new text.new result)
        ≡ seen (emit_all (room_of tokens.old text.old out) (only has_text (flipped (clip_at lowered.now source.now c) p k ∷ []))) }
{
    if k == p {
        return put_flip(tokens, text, out, lowered, source, c, k);
    }
    put_clip_at(tokens, text, out, lowered, source, c, k)
}

// The condition's tokens, the one at place p flipped.
fn put_flipped(
    tokens: &mut [u64],
    text: &mut [u8],
    out: Out,
    lowered: &[u64],
    source: &[u8],
    c: Clip,
    p: usize,
) -> Out
    ensures { seen (room_of tokens.new text.new result)
        ≡ seen (emit_all (room_of tokens.old text.old out) (texts (flipped (clip_at lowered.now source.now c) p) (c.count - 1))) }
{
    let mut out = out;
    for k in 1..c.count {
        out = put_flip_at(tokens, text, out, lowered, source, c, p, k);
    }
    out
}

// `!(C)`
fn put_wrapped(
    tokens: &mut [u64],
    text: &mut [u8],
    out: Out,
    lowered: &[u64],
    source: &[u8],
    c: Clip,
) -> Out
    ensures { seen (room_of tokens.new text.new result)
        ≡ seen (emit_all (room_of tokens.old text.old out) (punct (txt "!(") ∷ (clip_of lowered.now source.now c ++ (punct (txt ")") ∷ [])))) }
{
    let out = put(tokens, text, out, PUNCT, b"!(");
    let out = put_clip(tokens, text, out, lowered, source, c);
    put(tokens, text, out, PUNCT, b")")
}

// The condition negated: its one comparison flipped, or all of it wrapped.
pub fn put_negated(
    tokens: &mut [u64],
    text: &mut [u8],
    out: Out,
    lowered: &[u64],
    source: &[u8],
    c: Clip,
) -> Out
    requires { Orderly lowered.now source.now c }
    ensures { seen (room_of tokens.new text.new result)
        ≡ seen (emit_all (room_of tokens.old text.old out) (negate (clip_of lowered.now source.now c))) }
{
    let l = look_over(lowered, source, c);
    if flips(source, c, l.hits) {
        return put_flipped(tokens, text, out, lowered, source, c, l.place);
    }
    put_wrapped(tokens, text, out, lowered, source, c)
}
