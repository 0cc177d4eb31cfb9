// The comparisons of a condition that stand outside of parentheses.
ghost use Rattle.std.specs.Prelude.{◌≡◌, map, ◌-◌};
ghost use Rattle.definition.specs.Lists.{range};
ghost use Rattle.clips.specs.Clip.{clip_at, Orderly};
ghost use Rattle.comparisons.specs.Looks.{unseen, stepped, looked, Within};

use crate::signs::{compares, count_between};
use clips::clip::{Clip, clip_from, clip_to};
use sheet::tokens::{kind_at, place};

const PUNCT: u32 = 6;

// What the tokens up to one say.
#[derive(Clone, Copy)]
pub struct Look {
    // The parentheses in them.
    pub opens: usize,
    pub closes: usize,
    // How many comparisons, and the place of the last.
    pub hits: usize,
    pub place: usize,
}

// With the token at place k.
fn look_at(lowered: &[u64], source: &[u8], c: Clip, k: usize, l: Look) -> Look
    requires { Within lowered.now c k l }
    ensures { result ≡ stepped l k (clip_at lowered.now source.now c k) }
{
    if kind_at(lowered, place(lowered, c.first, k)) != PUNCT {
        return l;
    }
    let from = clip_from(lowered, c, k);
    let to = clip_to(lowered, c, k);
    let opens = l.opens + count_between(source, from, to, b'(');
    let closes = l.closes + count_between(source, from, to, b')');
    if opens == closes && compares(source, from, to) {
        return Look {
            opens,
            closes,
            hits: l.hits + 1,
            place: k,
        };
    }
    Look { opens, closes, ..l }
}

// With all tokens of the condition.
pub fn look_over(lowered: &[u64], source: &[u8], c: Clip) -> Look
    requires { Orderly lowered.now source.now c }
    ensures { result ≡ looked unseen 1 (map (clip_at lowered.now source.now c) (range 1 (c.count - 1))) }
{
    let mut l = Look {
        opens: 0,
        closes: 0,
        hits: 0,
        place: 0,
    };
    for k in 1..c.count {
        l = look_at(lowered, source, c, k, l);
    }
    l
}
