// A jump inside the function: to a block, or computed.
ghost use Rattle.std.specs.Prelude.{◌≡◌, ◌<◌};
ghost use Rattle.definition.specs.Edition.{Edition, blocks};
ghost use Rattle.definition.specs.Contents.{size, text as text_of};
ghost use Rattle.definition.specs.Owners.{stmt_field};
ghost use Rattle.definition.specs.Lower.{first_of};
ghost use Rattle.room.specs.Room.{room_of, emit_all, seen, sheet_of, write_all, seen_sheet};
ghost use Rattle.lowering.specs.Lowered.{lowering_of};
ghost use Rattle.gotos.specs.Written.{uses_of, stmt_line, to_block, computed_tokens};

use crate::goto::put_goto;
use labels::is_next;
use lowering::line::end_stmt;
use lowering::list::put_expr;
use pieces::put::put;
use records::contents::item_word;
use records::owners::stmt_field;
use render::kinds::{KEYWORD, PUNCT};
use render::source::Source;
use room::out::Out;

// `goto LABEL;`, unless the next block is meant.
pub fn to_block(
    lines: &mut [u64],
    tokens: &mut [u64],
    text: &mut [u8],
    out: Out,
    f: &[u8],
    block: u32,
    i: u32,
    a: u64,
) -> Out
    requires { block < size f.now blocks }
    ensures { seen_sheet (sheet_of lines.new tokens.new text.new result)
        ≡ seen_sheet (write_all (sheet_of lines.old tokens.old text.old out) (to_block f.now block i a)) }
{
    if is_next(f, block, a) {
        return out;
    }
    let out = put_goto(tokens, text, out, a);
    end_stmt(lines, out, f, i)
}

// The first of n list items from `item` on, if there is one.
fn put_first(
    tokens: &mut [u64],
    text: &mut [u8],
    out: Out,
    src: &Source<'_>,
    item: u32,
    n: u32,
) -> Out
    ensures { (E : Edition) → text_of E ≡ src.now.of.t → seen (room_of tokens.new text.new result)
        ≡ seen (emit_all (room_of tokens.old text.old out) (first_of (lowering_of E src.now.of.f.now) (uses_of E src.now.of.f.now item n))) }
{
    if n == 0 {
        return out;
    }
    let x = item_word(src.of.f, item, 0);
    put_expr(tokens, text, out, src, x)
}

// `goto *E;`
fn put_computed(
    tokens: &mut [u64],
    text: &mut [u8],
    out: Out,
    src: &Source<'_>,
    item: u32,
    n: u32,
) -> Out
    ensures { (E : Edition) → text_of E ≡ src.now.of.t → seen (room_of tokens.new text.new result)
        ≡ seen (emit_all (room_of tokens.old text.old out) (computed_tokens E src.now.of.f.now item n)) }
{
    let out = put(tokens, text, out, KEYWORD, b"goto");
    let out = put(tokens, text, out, PUNCT, b" *");
    let out = put_first(tokens, text, out, src, item, n);
    put(tokens, text, out, PUNCT, b";")
}

// The line of a computed jump.
pub fn computed(
    lines: &mut [u64],
    tokens: &mut [u64],
    text: &mut [u8],
    out: Out,
    src: &Source<'_>,
    i: u32,
    item: u32,
) -> Out
    ensures { (E : Edition) → text_of E ≡ src.now.of.t → seen_sheet (sheet_of lines.new tokens.new text.new result)
        ≡ seen_sheet (write_all (sheet_of lines.old tokens.old text.old out) (stmt_line src.now.of.f.now i (computed_tokens E src.now.of.f.now item (stmt_field src.now.of.f.now i 6)))) }
{
    let n = stmt_field(src.of.f, i, 6);
    let out = put_computed(tokens, text, out, src, item, n);
    end_stmt(lines, out, src.of.f, i)
}
