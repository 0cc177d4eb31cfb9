// What a call calls: a name, or an expression.
ghost use Rattle.std.specs.Prelude.{◌≡◌};
ghost use Rattle.definition.specs.Edition.{Edition};
ghost use Rattle.definition.specs.Contents.{text as text_of};
ghost use Rattle.definition.specs.Tokens.{tok};
ghost use Rattle.definition.specs.Lower.{indirect};
ghost use Rattle.room.specs.Room.{room_of, emit, emit_all, seen};
ghost use Rattle.lowering.specs.Lowered.{lowering_of};
ghost use Rattle.lowering.specs.Commas.{listed, trees_of};
ghost use Rattle.calling.specs.Written.{is_slot, slot_text, target_of};

use calls::direct::{is_indirect, put_direct};
use lowering::list::put_within;
use pieces::from_file::put_global;
use records::contents::{EXPRESSIONS, expr_long, expr_word, item_word, size_of};
use records::owners::{CONST, LOAD, stmt_field};
use render::source::Source;
use room::out::Out;
use text::names::is_global;

// Whether expression n loads a constant that names a global. A child that is not lower counts as no constant.
#[tactic(auto, unfolding(crate::specs::Written::is_slot))]
fn is_slot(f: &[u8], n: u32) -> bool
    ensures { result ≡ is_slot f.now n }
{
    let c = expr_word(f, n, 2);
    n < size_of(f, EXPRESSIONS)
        && expr_word(f, n, 0) == LOAD
        && c < n
        && expr_word(f, c, 0) == CONST
        && is_global(expr_long(f, c, 1))
}

// That global.
fn put_slot(tokens: &mut [u64], text: &mut [u8], out: Out, f: &[u8], t: u32, n: u32) -> Out
    ensures { room_of tokens.new text.new result
        ≡ emit (room_of tokens.old text.old out) (tok 4 (slot_text f.now t n)) }
{
    let size = expr_word(f, n, 1);
    let c = expr_long(f, expr_word(f, n, 2), 1);
    put_global(tokens, text, out, f, t, c, size)
}

// Of n arguments from list item `item` on: the first is the target, a global or `(*E)`.
fn put_indirect(
    tokens: &mut [u64],
    text: &mut [u8],
    out: Out,
    src: &Source<'_>,
    item: u32,
    n: u32,
) -> Out
    ensures { (E : Edition) → text_of E ≡ src.now.of.t → seen (room_of tokens.new text.new result)
        ≡ seen (emit_all (room_of tokens.old text.old out) (indirect (lowering_of E src.now.of.f.now) (trees_of E src.now.of.f.now (listed src.now.of.f.now item n)))) }
{
    if n == 0 {
        return out;
    }
    let x = item_word(src.of.f, item, 0);
    if is_slot(src.of.f, x) {
        return put_slot(tokens, text, out, src.of.f, src.of.t, x);
    }
    put_within(tokens, text, out, src, b"(*", x, b")")
}

// The target of call i, whose list items begin at `item`.
pub fn put_target(
    tokens: &mut [u64],
    text: &mut [u8],
    out: Out,
    src: &Source<'_>,
    i: u32,
    item: u32,
) -> Out
    ensures { (E : Edition) → text_of E ≡ src.now.of.t → seen (room_of tokens.new text.new result)
        ≡ seen (emit_all (room_of tokens.old text.old out) (target_of E src.now.of.f.now i item)) }
{
    let start = stmt_field(src.of.f, i, 0);
    let len = stmt_field(src.of.f, i, 1);
    if is_indirect(src.of.f, src.of.t, start, len) {
        let n = stmt_field(src.of.f, i, 2);
        return put_indirect(tokens, text, out, src, item, n);
    }
    put_direct(tokens, text, out, src.of.f, src.of.t, start, len)
}
