// `Gen::expr`: an expression, or a value, as it prints before statement `pos`. A value written in place prints the expression of its statement, as it
// prints before that statement, which is earlier; a child is lower than its parent. So the position, then the node, falls.
ghost use Rattle.std.specs.Prelude.{◌≡◌, ◌≤◌, length};
ghost use Rattle.definition.specs.Edition.{Edition, expressions};
ghost use Rattle.definition.specs.Contents.{size, text as text_section};
ghost use Rattle.definition.specs.Lists.{at};
ghost use Rattle.places.specs.Keys.{value_of, keyed};
ghost use Rattle.room.specs.Room.{room_of, emit_all, seen};
ghost use Rattle.render.specs.Gens.{rendered, used};
ghost use Rattle.render.specs.Told.{NamedAt};
ghost use Rattle.render.specs.declared.form.Form.TheVariants.{Bin as BinForm, Un as UnForm, Through as ThroughForm};
ghost use Rattle.render.specs.Forms.{opens, rendered_below, form_tokens};

use crate::code::put_code;
use crate::form::{Form, form_of};
use crate::kinds::PUNCT;
use crate::leaves::{put_address, put_cast, put_leaf, put_nothing, put_text};
use crate::operators::put_operator;
use crate::source::Source;
use meaning::meaning::bits_of;
use pieces::put::{put, put_if};
use records::contents::{EXPRESSIONS, size_of};
use records::owners::stmt_field;
use room::out::Out;
use slices::get;
use ssa::node::{Bin, Load, Un};

// Where an expression is: node n, which counts if it is below b, before statement `pos`.
#[derive(Clone, Copy)]
struct Spot {
    pos: u32,
    b: u32,
    n: u32,
    top: bool,
}

// Expression n.
pub fn expr(
    tokens: &mut [u64],
    text: &mut [u8],
    out: Out,
    src: &Source<'_>,
    pos: u32,
    n: u32,
    top: bool,
) -> Out
    ensures { (E : Edition) → text_section E ≡ src.now.of.t → seen (room_of tokens.new text.new result)
        ≡ seen (emit_all (room_of tokens.old text.old out) (rendered E src.now.of.f.now pos top n)) }
{
    let b = size_of(src.of.f, EXPRESSIONS);
    let at = Spot { pos, b, n, top };
    below(tokens, text, out, src, at)
}

// Whether place k, which is 0, or 1 more than a statement's number, is that of a statement before `pos`.
#[tactic(auto, unfolding(crate::specs::Forms::opens))]
fn is_open(k: u32, pos: u32) -> bool
    ensures { result ≡ opens k pos }
{
    0 < k && k <= pos
}

// Expression n, where it is below b.
#[cycle(rendering)]
fn below(tokens: &mut [u64], text: &mut [u8], out: Out, src: &Source<'_>, at: Spot) -> Out
    requires { at.b ≤ size src.now.of.f.now expressions }
    ensures { (E : Edition) → text_section E ≡ src.now.of.t → seen (room_of tokens.new text.new result)
        ≡ seen (emit_all (room_of tokens.old text.old out) (rendered_below E src.now.of.f.now at.pos at.b at.top at.n)) }
{
    if out.full {
        return out;
    }
    if at.n >= at.b {
        return put_nothing(tokens, text, out);
    }
    match form_of(src, at.n) {
        Form::Leaf(l) => put_leaf(tokens, text, out, src.of.f, src.of.t, l),
        Form::Use(r) => {
            let place = src.of.places.exprs + at.n as usize;
            value(tokens, text, out, src, at.pos, place, r, at.top)
        }
        Form::Bin(s) => binary(tokens, text, out, src, at, s),
        Form::Un(s) => unary(tokens, text, out, src, at, s),
        Form::Through(s) => through(tokens, text, out, src, at, s),
    }
}

// The operands s of expression n, and the operator between them.
#[cycle(rendering)]
fn binary(tokens: &mut [u64], text: &mut [u8], out: Out, src: &Source<'_>, at: Spot, s: Bin) -> Out
    requires { at.n ≤ size src.now.of.f.now expressions }
    ensures { (E : Edition) → text_section E ≡ src.now.of.t → seen (room_of tokens.new text.new result)
        ≡ seen (emit_all (room_of tokens.old text.old out) (form_tokens E src.now.of.f.now at.pos at.n at.top (BinForm s))) }
{
    let left = Spot {
        b: at.n,
        n: s.left,
        top: false,
        ..at
    };
    let right = Spot { n: s.right, ..left };
    let inner = !at.top;
    let out = put_if(tokens, text, out, PUNCT, b"(", inner);
    let out = below(tokens, text, out, src, left);
    let out = put_operator(tokens, text, out, src.of.f, src.of.t, s.op);
    let out = below(tokens, text, out, src, right);
    put_if(tokens, text, out, PUNCT, b")", inner)
}

// The operator, and the operand behind it.
#[cycle(rendering)]
fn unary(tokens: &mut [u64], text: &mut [u8], out: Out, src: &Source<'_>, at: Spot, s: Un) -> Out
    requires { at.n ≤ size src.now.of.f.now expressions }
    ensures { (E : Edition) → text_section E ≡ src.now.of.t → seen (room_of tokens.new text.new result)
        ≡ seen (emit_all (room_of tokens.old text.old out) (form_tokens E src.now.of.f.now at.pos at.n at.top (UnForm s))) }
{
    let child = Spot {
        b: at.n,
        n: s.child,
        top: false,
        ..at
    };
    let out = put_text(tokens, text, out, PUNCT, src.of.f, src.of.t, s.op);
    below(tokens, text, out, src, child)
}

// A load through an address.
#[cycle(rendering)]
fn through(
    tokens: &mut [u64],
    text: &mut [u8],
    out: Out,
    src: &Source<'_>,
    at: Spot,
    s: Load,
) -> Out
    requires { at.n ≤ size src.now.of.f.now expressions }
    ensures { (E : Edition) → text_section E ≡ src.now.of.t → seen (room_of tokens.new text.new result)
        ≡ seen (emit_all (room_of tokens.old text.old out) (form_tokens E src.now.of.f.now at.pos at.n at.top (ThroughForm s))) }
{
    let child = Spot {
        b: at.n,
        n: s.child,
        top: true,
        ..at
    };
    let out = put_cast(tokens, text, out, s.size);
    let out = below(tokens, text, out, src, child);
    put(tokens, text, out, PUNCT, b")")
}

// The value of register `reg` that stands at `place` of the file.
#[cycle(rendering)]
pub fn value(
    tokens: &mut [u64],
    text: &mut [u8],
    out: Out,
    src: &Source<'_>,
    pos: u32,
    place: usize,
    reg: u32,
    top: bool,
) -> Out
    requires { NamedAt src.now.of.f.now (length src.now.of.numbers.now) place reg }
    ensures { (E : Edition) → text_section E ≡ src.now.of.t → seen (room_of tokens.new text.new result)
        ≡ seen (emit_all (room_of tokens.old text.old out) (used E src.now.of.f.now pos top (value_of (at (keyed src.now.of.f.now (length src.now.of.numbers.now)) place)))) }
{
    if out.full {
        return out;
    }
    let v = get(src.of.numbers, place) as usize;
    let s = get(src.offs, v);
    if s != 0 {
        return put_address(tokens, text, out, s);
    }
    let k = get(src.placed, v);
    if is_open(k, pos) {
        let i = k - 1;
        let opened = Spot {
            pos: i,
            b: size_of(src.of.f, EXPRESSIONS),
            n: stmt_field(src.of.f, i, 2),
            top,
        };
        return below(tokens, text, out, src, opened);
    }
    put_code(tokens, text, out, bits_of(src.of.f), reg, get(src.names, v))
}
