// Gotos: their tokens, and the line of one to a name.
ghost use Rattle.std.specs.Prelude.{◌≡◌};
ghost use Rattle.definition.specs.Edition.{Edition};
ghost use Rattle.definition.specs.Contents.{text as text_of};
ghost use Rattle.definition.specs.Numbers.{label as label_of};
ghost use Rattle.definition.specs.Tokens.{tok, symbol};
ghost use Rattle.definition.specs.Lower.{goto_tokens};
ghost use Rattle.room.specs.Room.{room_of, emit_all, seen, sheet_of, write_all, seen_sheet};
ghost use Rattle.gotos.specs.Written.{go_tokens, name_of, stmt_line};

use calls::targets::put_target;
use lowering::line::end_stmt;
use pieces::put::{put, put_label};
use render::kinds::{KEYWORD, PUNCT, TEXT};
use room::out::Out;

// `goto `
fn put_go(tokens: &mut [u64], text: &mut [u8], out: Out) -> Out
    ensures { seen (room_of tokens.new text.new result)
        ≡ seen (emit_all (room_of tokens.old text.old out) go_tokens) }
{
    let out = put(tokens, text, out, KEYWORD, b"goto");
    put(tokens, text, out, TEXT, b" ")
}

// `goto LABEL;`, to the block that starts at a.
pub fn put_goto(tokens: &mut [u64], text: &mut [u8], out: Out, a: u64) -> Out
    ensures { seen (room_of tokens.new text.new result)
        ≡ seen (emit_all (room_of tokens.old text.old out) (goto_tokens (symbol (label_of a)))) }
{
    let out = put_go(tokens, text, out);
    let out = put_label(tokens, text, out, a);
    put(tokens, text, out, PUNCT, b";")
}

// `goto NAME;`, to wherever a is.
pub fn put_goto_name(
    tokens: &mut [u64],
    text: &mut [u8],
    out: Out,
    kind: u32,
    f: &[u8],
    t: u32,
    a: u64,
) -> Out
    ensures { (E : Edition) → text_of E ≡ t → seen (room_of tokens.new text.new result)
        ≡ seen (emit_all (room_of tokens.old text.old out) (goto_tokens (tok kind (name_of E f.now a)))) }
{
    let out = put_go(tokens, text, out);
    let out = put_target(tokens, text, out, kind, f, t, a);
    put(tokens, text, out, PUNCT, b";")
}

// Its line, for statement i.
pub fn name_line(
    lines: &mut [u64],
    tokens: &mut [u64],
    text: &mut [u8],
    out: Out,
    kind: u32,
    f: &[u8],
    t: u32,
    i: u32,
    a: u64,
) -> Out
    ensures { (E : Edition) → text_of E ≡ t → seen_sheet (sheet_of lines.new tokens.new text.new result)
        ≡ seen_sheet (write_all (sheet_of lines.old tokens.old text.old out) (stmt_line f.now i (goto_tokens (tok kind (name_of E f.now a))))) }
{
    let out = put_goto_name(tokens, text, out, kind, f, t, a);
    end_stmt(lines, out, f, i)
}
