// A comparison as it is printed: `(unsigned)`, its two sides, and the sign between them.
ghost use Rattle.std.specs.Prelude.{◌≡◌};
ghost use Rattle.definition.specs.Edition.{Edition};
ghost use Rattle.definition.specs.Contents.{text as text_of};
ghost use Rattle.definition.specs.Tokens.{punct};
ghost use Rattle.definition.specs.Condition.{sign_text, side_tokens, shown_tokens};
ghost use Rattle.room.specs.Room.{room_of, emit, emit_all, seen};
ghost use Rattle.conditions.specs.Pairs.{operand_tokens, Fits};
ghost use Rattle.conditions.specs.Printed.{view_side, view_sign, view_shown, between};

use crate::operands::{Pair, put_operand};
use flags::comparison::{Shown, Side, Sign};
use pieces::put::{put, put_if};
use render::kinds::{KEYWORD, PUNCT};
use render::source::Source;
use room::out::Out;

// `(LEFT op RIGHT)`
fn put_between(
    tokens: &mut [u64],
    text: &mut [u8],
    out: Out,
    src: &Source<'_>,
    p: Pair,
    op: &[u8],
) -> Out
    requires { Fits src.now.of.f.now p }
    ensures { (E : Edition) → text_of E ≡ src.now.of.t → seen (room_of tokens.new text.new result)
        ≡ seen (emit_all (room_of tokens.old text.old out)
        (between (operand_tokens E src.now.of.f.now p.left) (operand_tokens E src.now.of.f.now p.right) op.now)) }
{
    let left = p.left;
    let right = p.right;
    let out = put(tokens, text, out, PUNCT, b"(");
    let out = put_operand(tokens, text, out, src, left);
    let out = put(tokens, text, out, PUNCT, op);
    let out = put_operand(tokens, text, out, src, right);
    put(tokens, text, out, PUNCT, b")")
}

fn put_side(
    tokens: &mut [u64],
    text: &mut [u8],
    out: Out,
    src: &Source<'_>,
    p: Pair,
    side: Side,
) -> Out
    requires { Fits src.now.of.f.now p }
    ensures { (E : Edition) → text_of E ≡ src.now.of.t → seen (room_of tokens.new text.new result)
        ≡ seen (emit_all (room_of tokens.old text.old out)
        (side_tokens (operand_tokens E src.now.of.f.now p.left) (operand_tokens E src.now.of.f.now p.right) (view_side side))) }
{
    match side {
        Side::Left => {
            let x = p.left;
            put_operand(tokens, text, out, src, x)
        }
        Side::Right => {
            let x = p.right;
            put_operand(tokens, text, out, src, x)
        }
        Side::Difference => { put_between(tokens, text, out, src, p, b" - ") }
        Side::Both => { put_between(tokens, text, out, src, p, b" & ") }
        Side::Nought => put(tokens, text, out, PUNCT, b"0"),
    }
}

fn put_sign(tokens: &mut [u64], text: &mut [u8], out: Out, sign: Sign) -> Out
    ensures { room_of tokens.new text.new result
        ≡ emit (room_of tokens.old text.old out) (punct (sign_text (view_sign sign))) }
{
    match sign {
        Sign::Equal => put(tokens, text, out, PUNCT, b" == "),
        Sign::Unequal => put(tokens, text, out, PUNCT, b" != "),
        Sign::Under => put(tokens, text, out, PUNCT, b" < "),
        Sign::NotUnder => put(tokens, text, out, PUNCT, b" >= "),
        Sign::Over => put(tokens, text, out, PUNCT, b" > "),
        Sign::NotOver => put(tokens, text, out, PUNCT, b" <= "),
    }
}

// The comparison c of the operands p.
pub fn put_shown(
    tokens: &mut [u64],
    text: &mut [u8],
    out: Out,
    src: &Source<'_>,
    p: Pair,
    c: Shown,
) -> Out
    requires { Fits src.now.of.f.now p }
    ensures { (E : Edition) → text_of E ≡ src.now.of.t → seen (room_of tokens.new text.new result)
        ≡ seen (emit_all (room_of tokens.old text.old out)
        (shown_tokens (operand_tokens E src.now.of.f.now p.left) (operand_tokens E src.now.of.f.now p.right) (view_shown c))) }
{
    let lhs = c.lhs;
    let sign = c.sign;
    let rhs = c.rhs;
    let out = put_if(tokens, text, out, KEYWORD, b"(unsigned)", c.unsigned);
    let out = put_side(tokens, text, out, src, p, lhs);
    let out = put_sign(tokens, text, out, sign);
    put_side(tokens, text, out, src, p, rhs)
}
