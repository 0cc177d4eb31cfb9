// The line of an Other.
ghost use Rattle.std.specs.Prelude.{◌≡◌, List, [], ◌∷◌, ◌++◌, ℕ, ◌<◌, ◌≤◌, length};
ghost use Rattle.definition.specs.Codes.{k_other};
ghost use Rattle.definition.specs.Edition.{Edition, statements};
ghost use Rattle.definition.specs.Contents.{size, text as text_of, text_at};
ghost use Rattle.definition.specs.Owners.{stmt_kind, first_item};
ghost use Rattle.definition.specs.Ssa.{Stmt};
ghost use Rattle.definition.specs.Meaning.{bits};
ghost use Rattle.definition.specs.Tokens.{textual};
ghost use Rattle.definition.specs.Lower.{Here};
ghost use Rattle.reads.specs.Counts.{LiveReads, PhiReads};
ghost use Rattle.room.specs.Room.{room_of, sheet_of, emit_all, seen, seen_sheet, write_all};
ghost use Rattle.lowering.specs.Lowered.{lowered};
ghost use Rattle.plain.specs.Asm.{asm_block, asm_call, asm_of, other_of};

use crate::sets::{Named, Sets, sets_of};
use lowering::line::end_stmt;
use meaning::meaning::bits_of;
use pieces::from_file::put_part;
use pieces::put::put;
use records::contents::offset_of;
use records::owners::{is_dead, stmt_field};
use render::code::put_code;
use render::kinds::{KEYWORD, PUNCT, TEXT};
use render::source::Source;
use room::out::Out;
use ssa::parts::Text;

// A text of the file's section t between two others, as one token.
fn put_between(
    tokens: &mut [u64],
    text: &mut [u8],
    out: Out,
    f: &[u8],
    t: u32,
    x: Text,
    left: &[u8],
    right: &[u8],
) -> Out
    ensures { (E : Edition) → text_of E ≡ t → seen (room_of tokens.new text.new result)
        ≡ seen (emit_all (room_of tokens.old text.old out) (textual (left.now ++ text_at E f.now x.start x.len ++ right.now) ∷ [])) }
{
    let at = offset_of(f, t) as usize + x.start as usize;
    let out = put(tokens, text, out, TEXT, left);
    let out = put_part(tokens, text, out, TEXT, f, at, x.len as usize);
    put(tokens, text, out, TEXT, right)
}

// `__asm { TEXT }`
fn put_block(tokens: &mut [u64], text: &mut [u8], out: Out, f: &[u8], t: u32, x: Text) -> Out
    ensures { (E : Edition) → text_of E ≡ t → seen (room_of tokens.new text.new result)
        ≡ seen (emit_all (room_of tokens.old text.old out) (asm_block (text_at E f.now x.start x.len))) }
{
    let out = put(tokens, text, out, KEYWORD, b"__asm");
    put_between(tokens, text, out, f, t, x, b" { ", b" }")
}

// `NAME = __asm("TEXT");`
fn put_call(
    tokens: &mut [u64],
    text: &mut [u8],
    out: Out,
    f: &[u8],
    t: u32,
    x: Text,
    n: Named,
) -> Out
    ensures { (E : Edition) → text_of E ≡ t → seen (room_of tokens.new text.new result)
        ≡ seen (emit_all (room_of tokens.old text.old out) (asm_call (bits f.now) n (text_at E f.now x.start x.len))) }
{
    let width = bits_of(f);
    let out = put_code(tokens, text, out, width, n.reg, n.code);
    let out = put(tokens, text, out, PUNCT, b" = ");
    let out = put(tokens, text, out, KEYWORD, b"__asm");
    put_between(tokens, text, out, f, t, x, b"(\"", b"\");")
}

fn put_asm(tokens: &mut [u64], text: &mut [u8], out: Out, f: &[u8], t: u32, x: Text, s: Sets) -> Out
    ensures { (E : Edition) → text_of E ≡ t → seen (room_of tokens.new text.new result)
        ≡ seen (emit_all (room_of tokens.old text.old out) (asm_of (bits f.now) s (text_at E f.now x.start x.len))) }
{
    match s {
        Sets::One(n) => put_call(tokens, text, out, f, t, x, n),
        Sets::Nothing | Sets::More => put_block(tokens, text, out, f, t, x),
    }
}

fn put_other(
    tokens: &mut [u64],
    text: &mut [u8],
    out: Out,
    src: &Source<'_>,
    live: &[u32],
    phi: &[u32],
    i: u32,
    first: u32,
) -> Out
    requires live_reads { (LiveReads src.now.of.f.now (length src.now.of.numbers.now) live.now) × (PhiReads src.now.of.f.now (length src.now.of.numbers.now) phi.now) }
    requires i_bound { (i < size src.now.of.f.now statements) × (first ≡ first_item src.now.of.f.now i) }
    ensures { (E : Edition) → text_of E ≡ src.now.of.t → seen (room_of tokens.new text.new result)
        ≡ seen (emit_all (room_of tokens.old text.old out) (other_of E src.now.of.f.now i)) }
{
    let s = sets_of(
        src.of.f,
        src.of.places,
        src.of.numbers,
        src.names,
        live,
        phi,
        i,
        first,
    );
    let x = Text {
        start: stmt_field(src.of.f, i, 0),
        len: stmt_field(src.of.f, i, 1),
    };
    put_asm(tokens, text, out, src.of.f, src.of.t, x, s)
}

pub fn other(
    lines: &mut [u64],
    tokens: &mut [u64],
    text: &mut [u8],
    out: Out,
    src: &Source<'_>,
    live: &[u32],
    phi: &[u32],
    i: u32,
    end: u32,
    first: u32,
) -> Out
    requires i_value { stmt_kind src.now.of.f.now i ≡ k_other }
    requires i_lt_end { (i < end) × (end ≤ size src.now.of.f.now statements) }
    requires live_reads { (LiveReads src.now.of.f.now (length src.now.of.numbers.now) live.now) × (PhiReads src.now.of.f.now (length src.now.of.numbers.now) phi.now) }
    requires first_value { first ≡ first_item src.now.of.f.now i }
    ensures { (E : Edition) (H : Here) (pend : List Stmt) (set : List ℕ) → text_of E ≡ src.now.of.t
        → seen_sheet (sheet_of lines.new tokens.new text.new result)
        ≡ seen_sheet (write_all (sheet_of lines.old tokens.old text.old out) (lowered E src.now.of.f.now H pend set end i)) }
{
    if is_dead(src.of.f, i) {
        return out;
    }
    let out = put_other(tokens, text, out, src, live, phi, i, first);
    end_stmt(lines, out, src.of.f, i)
}
