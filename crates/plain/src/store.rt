// The line of a Store.
ghost use Rattle.std.specs.Prelude.{◌≡◌, List, ℕ, ◌<◌, ◌≤◌, length};
ghost use Rattle.definition.specs.Codes.{k_store};
ghost use Rattle.definition.specs.Edition.{Edition, statements};
ghost use Rattle.definition.specs.Contents.{size, text as text_of};
ghost use Rattle.definition.specs.Owners.{stmt_kind};
ghost use Rattle.definition.specs.Ssa.{Stmt};
ghost use Rattle.definition.specs.Offsets.{Known, look};
ghost use Rattle.definition.specs.Lower.{Here};
ghost use Rattle.values.specs.Tables.{table};
ghost use Rattle.room.specs.Room.{room_of, sheet_of, emit_all, seen, seen_sheet, write_all};
ghost use Rattle.lowering.specs.Lowered.{lowered};
ghost use Rattle.plain.specs.Pieces.{is_taken, is_silent, through_of, destination_of, store_of};

use calls::pushes::taken_behind;
use lowering::line::end_stmt;
use lowering::list::{put_expr, put_within};
use marks::saves::is_save;
use meaning::meaning::bits_of;
use pieces::put::{put, put_pointer, put_slot};
use records::owners::{is_dead, is_pushed, stmt_field};
use render::kinds::PUNCT;
use render::source::Source;
use room::out::Out;
use sums::address::stack_off;
use sums::numbered::Numbered;

// Whether it is a 32-bit push that a call behind it in the block takes along.
#[tactic(auto, unfolding(crate::specs::Pieces::is_taken))]
fn is_taken(f: &[u8], i: u32, end: u32) -> bool
    ensures { (E : Edition) → result ≡ is_taken E f.now end i }
{
    bits_of(f) == 32 && is_pushed(f, i) && taken_behind(f, i, end)
}

// Whether it prints nothing: such a push, or the prologue's save of a callee-saved register.
#[tactic(auto, unfolding(crate::specs::Pieces::is_silent))]
fn is_silent(offs: &[u64], of: &Numbered<'_>, i: u32, end: u32) -> bool
    ensures { (E : Edition) (k : List Known) → text_of E ≡ of.now.t → offs.now ≡ table of.now.f.now (length of.now.numbers.now) (look k)
        → result ≡ is_silent E of.now.f.now k end i }
{
    is_taken(of.f, i, end) || is_save(offs, of, i)
}

// `*(uintN_t *)(E)`, of so many bytes.
fn put_through(
    tokens: &mut [u64],
    text: &mut [u8],
    out: Out,
    src: &Source<'_>,
    bytes: u32,
    n: u32,
) -> Out
    ensures { (E : Edition) → text_of E ≡ src.now.of.t → seen (room_of tokens.new text.new result)
        ≡ seen (emit_all (room_of tokens.old text.old out) (through_of E src.now.of.f.now bytes n)) }
{
    let out = put_pointer(tokens, text, out, bytes);
    let out = put(tokens, text, out, PUNCT, b"(");
    let out = put_expr(tokens, text, out, src, n);
    put(tokens, text, out, PUNCT, b")")
}

// Where it stores: a slot, or through its address. A constant address is no global's name here.
fn put_place(tokens: &mut [u64], text: &mut [u8], out: Out, src: &Source<'_>, i: u32) -> Out
    ensures { (E : Edition) → text_of E ≡ src.now.of.t → seen (room_of tokens.new text.new result)
        ≡ seen (emit_all (room_of tokens.old text.old out) (destination_of E src.now.of.f.now i)) }
{
    let n = stmt_field(src.of.f, i, 1);
    let s = stack_off(src.offs, &src.of, n);
    if s != 0 {
        return put_slot(tokens, text, out, s);
    }
    let bytes = stmt_field(src.of.f, i, 0);
    put_through(tokens, text, out, src, bytes, n)
}

fn put_store(tokens: &mut [u64], text: &mut [u8], out: Out, src: &Source<'_>, i: u32) -> Out
    ensures { (E : Edition) → text_of E ≡ src.now.of.t → seen (room_of tokens.new text.new result)
        ≡ seen (emit_all (room_of tokens.old text.old out) (store_of E src.now.of.f.now i)) }
{
    let n = stmt_field(src.of.f, i, 2);
    let out = put_place(tokens, text, out, src, i);
    put_within(tokens, text, out, src, b" = ", n, b";")
}

pub fn store(
    lines: &mut [u64],
    tokens: &mut [u64],
    text: &mut [u8],
    out: Out,
    src: &Source<'_>,
    i: u32,
    end: u32,
) -> Out
    requires i_value { stmt_kind src.now.of.f.now i ≡ k_store }
    requires i_lt_end { (i < end) × (end ≤ size src.now.of.f.now statements) }
    ensures { (E : Edition) (H : Here) (pend : List Stmt) (set : List ℕ) → text_of E ≡ src.now.of.t
        → seen_sheet (sheet_of lines.new tokens.new text.new result)
        ≡ seen_sheet (write_all (sheet_of lines.old tokens.old text.old out) (lowered E src.now.of.f.now H pend set end i)) }
{
    if is_dead(src.of.f, i) {
        return out;
    }
    if is_silent(src.offs, &src.of, i, end) {
        return out;
    }
    let out = put_store(tokens, text, out, src, i);
    end_stmt(lines, out, src.of.f, i)
}
