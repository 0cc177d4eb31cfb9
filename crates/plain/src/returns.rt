// The line of a Return.
ghost use Rattle.std.specs.Prelude.{◌≡◌, List, ℕ, ◌<◌, ◌≤◌};
ghost use Rattle.definition.specs.Codes.{k_return};
ghost use Rattle.definition.specs.Edition.{Edition, statements};
ghost use Rattle.definition.specs.Contents.{size, text as text_of};
ghost use Rattle.definition.specs.Owners.{stmt_kind};
ghost use Rattle.definition.specs.Ssa.{Stmt};
ghost use Rattle.definition.specs.Lower.{Here};
ghost use Rattle.room.specs.Room.{room_of, sheet_of, emit_all, seen, seen_sheet, write_all};
ghost use Rattle.lowering.specs.Lowered.{lowered};
ghost use Rattle.plain.specs.Pieces.{result_of, return_of};

use lowering::line::end_stmt;
use lowering::list::put_expr;
use pieces::put::put;
use records::owners::{is_dead, stmt_field};
use render::kinds::{KEYWORD, PUNCT, TEXT};
use render::source::Source;
use room::out::Out;
use words::word_at;

// A space and the expression, where the function returns something and the statement says what.
fn put_result(tokens: &mut [u64], text: &mut [u8], out: Out, src: &Source<'_>, i: u32) -> Out
    ensures { (E : Edition) → text_of E ≡ src.now.of.t → seen (room_of tokens.new text.new result)
        ≡ seen (emit_all (room_of tokens.old text.old out) (result_of E src.now.of.f.now i)) }
{
    if word_at(src.of.f, 8) != 1 || stmt_field(src.of.f, i, 0) != 1 {
        return out;
    }
    let n = stmt_field(src.of.f, i, 1);
    let out = put(tokens, text, out, TEXT, b" ");
    put_expr(tokens, text, out, src, n)
}

fn put_return(tokens: &mut [u64], text: &mut [u8], out: Out, src: &Source<'_>, i: u32) -> Out
    ensures { (E : Edition) → text_of E ≡ src.now.of.t → seen (room_of tokens.new text.new result)
        ≡ seen (emit_all (room_of tokens.old text.old out) (return_of E src.now.of.f.now i)) }
{
    let out = put(tokens, text, out, KEYWORD, b"return");
    let out = put_result(tokens, text, out, src, i);
    put(tokens, text, out, PUNCT, b";")
}

pub fn returns(
    lines: &mut [u64],
    tokens: &mut [u64],
    text: &mut [u8],
    out: Out,
    src: &Source<'_>,
    i: u32,
    end: u32,
) -> Out
    requires i_value { stmt_kind src.now.of.f.now i ≡ k_return }
    requires i_lt_end { (i < end) × (end ≤ size src.now.of.f.now statements) }
    ensures { (E : Edition) (H : Here) (pend : List Stmt) (set : List ℕ) → text_of E ≡ src.now.of.t
        → seen_sheet (sheet_of lines.new tokens.new text.new result)
        ≡ seen_sheet (write_all (sheet_of lines.old tokens.old text.old out) (lowered E src.now.of.f.now H pend set end i)) }
{
    if is_dead(src.of.f, i) {
        return out;
    }
    let out = put_return(tokens, text, out, src, i);
    end_stmt(lines, out, src.of.f, i)
}
