// The signs of comparisons in a range of the lowered text.
ghost use Rattle.std.specs.Prelude.{◌≡◌, [], ◌∷◌, ◌+◌, eqb};
ghost use Rattle.definition.specs.Texts.{replace};
ghost use Rattle.definition.specs.Lists.{count};
ghost use Rattle.definition.specs.Tokens.{tok};
ghost use Rattle.definition.specs.Negate.{flips, flip_in, compares as compares_in};
ghost use Rattle.room.specs.Room.{room_of, emit_all, seen};
ghost use Rattle.sheet.specs.Ranges.{between};
ghost use Rattle.comparisons.specs.Looks.{place_of, Stands};
ghost use Rattle.comparisons.specs.Signs.{text_of, opposite_of, flip_of, first_in};

use clips::copies::put_between;
use pieces::put::put;
use room::out::Out;
use sheet::ranges::{begins_between, contains_between, part};

const PUNCT: u32 = 6;

// How often the byte b is in the range.
pub fn count_between(source: &[u8], from: usize, to: usize, b: u8) -> usize
    ensures { result ≡ count (eqb b) (between source.now from to) }
{
    part(source, from, to).iter().filter(|x| b == **x).count()
}

// A sign that compares.
#[derive(Clone, Copy, PartialEq, Eq)]
pub enum Sign {
    Equal,
    Unequal,
    Less,
    NotLess,
    Greater,
    NotGreater,
}

// The signs, in the definition's order.
const SIGNS: [Sign; 6] = [
    Sign::Equal,
    Sign::Unequal,
    Sign::Less,
    Sign::NotLess,
    Sign::Greater,
    Sign::NotGreater,
];

impl Sign {
    fn text(self) -> &'static [u8]
        ensures { result.now ≡ text_of self }
    {
        match self {
            Sign::Equal => b" == ",
            Sign::Unequal => b" != ",
            Sign::Less => b" < ",
            Sign::NotLess => b" >= ",
            Sign::Greater => b" > ",
            Sign::NotGreater => b" <= ",
        }
    }

    // The sign that holds exactly where this one does not.
    fn opposite(self) -> Sign
        ensures { result ≡ opposite_of self }
    {
        match self {
            Sign::Equal => Sign::Unequal,
            Sign::Unequal => Sign::Equal,
            Sign::Less => Sign::NotLess,
            Sign::NotLess => Sign::Less,
            Sign::Greater => Sign::NotGreater,
            Sign::NotGreater => Sign::Greater,
        }
    }
}

// The first of the signs, in the definition's order, that the range contains.
fn first_sign(text: &[u8], from: usize, to: usize) -> Option<Sign>
    ensures { flip_of result ≡ first_in flips (between text.now from to) }
{
    SIGNS
        .iter()
        .copied()
        .find(|sign| contains_between(text, from, to, sign.text()))
}

// Whether one of the signs is in the range.
pub fn compares(text: &[u8], from: usize, to: usize) -> bool
    ensures { result ≡ compares_in (between text.now from to) }
{
    first_sign(text, from, to).is_some()
}

// Where w first stands in the range; where it does not, the range's end, or its start where that is behind the end.
fn place_between(source: &[u8], from: usize, to: usize, w: &[u8]) -> usize
    ensures { result ≡ from + place_of w.now (between source.now from to) }
{
    let e = to.min(source.len());
    for i in from..e {
        if begins_between(source, i, to, w) {
            return i;
        }
    }
    from.max(e)
}

// The range as a Punct, with `new` in place of the first `old`.
fn put_replaced(
    tokens: &mut [u64],
    text: &mut [u8],
    out: Out,
    source: &[u8],
    from: usize,
    to: usize,
    old: &[u8],
    new: &[u8],
) -> Out
    requires { Stands old.now source.now from to }
    ensures { seen (room_of tokens.new text.new result)
        ≡ seen (emit_all (room_of tokens.old text.old out) (tok 6 (replace old.now new.now (between source.now from to)) ∷ [])) }
{
    let p = place_between(source, from, to, old);
    let behind = p + old.len();
    let out = put_between(tokens, text, out, PUNCT, source, from, p);
    let out = put(tokens, text, out, PUNCT, new);
    put_between(tokens, text, out, PUNCT, source, behind, to)
}

// The range as a Punct, with the first of the signs that it contains flipped.
pub fn put_opposite(
    tokens: &mut [u64],
    text: &mut [u8],
    out: Out,
    source: &[u8],
    from: usize,
    to: usize,
) -> Out
    ensures { seen (room_of tokens.new text.new result)
        ≡ seen (emit_all (room_of tokens.old text.old out) (tok 6 (flip_in flips (between source.now from to)) ∷ [])) }
{
    match first_sign(source, from, to) {
        Some(sign) => put_replaced(
            tokens,
            text,
            out,
            source,
            from,
            to,
            sign.text(),
            sign.opposite().text(),
        ),
        None => put_between(tokens, text, out, PUNCT, source, from, to),
    }
}
