// The line of an Assign.
ghost use Rattle.std.specs.Prelude.{◌≡◌, List, ℕ, ◌<◌, ◌≤◌, length};
ghost use Rattle.definition.specs.Codes.{k_assign};
ghost use Rattle.definition.specs.Edition.{Edition, statements};
ghost use Rattle.definition.specs.Contents.{size, text as text_of};
ghost use Rattle.definition.specs.Owners.{stmt_kind, stmt_field};
ghost use Rattle.definition.specs.Meaning.{bits};
ghost use Rattle.definition.specs.Ssa.{Stmt};
ghost use Rattle.definition.specs.Read.{tree_at, all_trees};
ghost use Rattle.definition.specs.Registers.{reg_name};
ghost use Rattle.definition.specs.Lookup.{name_or};
ghost use Rattle.definition.specs.Tokens.{tok};
ghost use Rattle.definition.specs.Lower.{Here, is_stack_load};
ghost use Rattle.definition.specs.Lists.{at};
ghost use Rattle.names.specs.Codes.{name_text};
ghost use Rattle.room.specs.Room.{room_of, sheet_of, emit, emit_all, seen, seen_sheet, write_all};
ghost use Rattle.lowering.specs.Lowered.{lowering_of, lowered};
ghost use Rattle.plain.specs.Classed.{Classed};
ghost use Rattle.plain.specs.Pieces.{gone_by, restored_by, assign_of};

use crate::parts::number_of;
use defined::value::RSP;
use lowering::line::end_stmt;
use lowering::list::put_within;
use meaning::meaning::bits_of;
use records::contents::{EXPRESSIONS, expr_word, size_of};
use records::owners::{LOAD, is_dead, stmt_field};
use render::code::put_code;
use render::source::Source;
use room::out::Out;
use slices::get;
use sums::address::stack_off;
use text::registers::Register;

// Whether expression n loads from a slot. As in the definition, a child that is not lower is no address.
fn is_stack_load(src: &Source<'_>, n: u32) -> bool
    ensures { (E : Edition) → text_of E ≡ src.now.of.t → result ≡ is_stack_load (lowering_of E src.now.of.f.now) (tree_at (all_trees E src.now.of.f.now) n) }
{
    if n >= size_of(src.of.f, EXPRESSIONS) || expr_word(src.of.f, n, 0) != LOAD {
        return false;
    }
    let a = expr_word(src.of.f, n, 2);
    a < n && stack_off(src.offs, &src.of, a) != 0
}

// Whether it restores a callee-saved register, value m: a load from a slot of which no value of its class is really read.
#[tactic(auto, unfolding(crate::specs::Pieces::restored_by))]
fn is_restore(src: &Source<'_>, roots: &[u32], marks: &[u32], i: u32, m: usize) -> bool
    ensures { (E : Edition) → text_of E ≡ src.now.of.t → result ≡ restored_by src.now.of.f.now i (at marks.now (at roots.now m))
        (is_stack_load (lowering_of E src.now.of.f.now) (tree_at (all_trees E src.now.of.f.now) (stmt_field src.now.of.f.now i 2))) }
{
    let x = Register {
        number: stmt_field(src.of.f, i, 0),
    };
    x.callee_saved()
        && get(marks, get(roots, m) as usize) == 0
        && is_stack_load(src, stmt_field(src.of.f, i, 2))
}

// Whether it is dead, RSP's, or value m is written in place.
#[tactic(auto, unfolding(crate::specs::Pieces::gone_by))]
fn is_gone(f: &[u8], placed: &[u32], i: u32, m: usize) -> bool
    ensures { result ≡ gone_by f.now i (at placed.now m) }
{
    is_dead(f, i) || stmt_field(f, i, 0) == RSP || get(placed, m) != 0
}

// The name of what it defines, value m.
fn put_name(
    tokens: &mut [u64],
    text: &mut [u8],
    out: Out,
    f: &[u8],
    names: &[u32],
    i: u32,
    m: usize,
) -> Out
    ensures { room_of tokens.new text.new result
        ≡ emit (room_of tokens.old text.old out)
        (tok 1 (name_or (reg_name (bits f.now) (stmt_field f.now i 0)) (name_text (bits f.now) (stmt_field f.now i 0) (at names.now m)))) }
{
    let width = bits_of(f);
    let reg = stmt_field(f, i, 0);
    let code = get(names, m);
    put_code(tokens, text, out, width, reg, code)
}

fn put_assign(tokens: &mut [u64], text: &mut [u8], out: Out, src: &Source<'_>, i: u32) -> Out
    requires { (stmt_kind src.now.of.f.now i ≡ k_assign) × (i < size src.now.of.f.now statements) }
    ensures { (E : Edition) → text_of E ≡ src.now.of.t → seen (room_of tokens.new text.new result)
        ≡ seen (emit_all (room_of tokens.old text.old out) (assign_of E src.now.of.f.now i)) }
{
    let n = stmt_field(src.of.f, i, 2);
    let m = number_of(src.of.numbers, src.of.places.stmts, i);
    let out = put_name(tokens, text, out, src.of.f, src.names, i, m);
    put_within(tokens, text, out, src, b" = ", n, b";")
}

pub fn assign(
    lines: &mut [u64],
    tokens: &mut [u64],
    text: &mut [u8],
    out: Out,
    src: &Source<'_>,
    roots: &[u32],
    marks: &[u32],
    i: u32,
    end: u32,
) -> Out
    requires i_value { stmt_kind src.now.of.f.now i ≡ k_assign }
    requires i_lt_end { (i < end) × (end ≤ size src.now.of.f.now statements) }
    requires classed { Classed src.now.of.f.now src.now.of.t (length src.now.of.numbers.now) src.now.offs.now roots.now marks.now }
    ensures { (E : Edition) (H : Here) (pend : List Stmt) (set : List ℕ) → text_of E ≡ src.now.of.t
        → seen_sheet (sheet_of lines.new tokens.new text.new result)
        ≡ seen_sheet (write_all (sheet_of lines.old tokens.old text.old out) (lowered E src.now.of.f.now H pend set end i)) }
{
    let m = number_of(src.of.numbers, src.of.places.stmts, i);
    if is_gone(src.of.f, src.placed, i, m) {
        return out;
    }
    if is_restore(src, roots, marks, i, m) {
        return out;
    }
    let out = put_assign(tokens, text, out, src, i);
    end_stmt(lines, out, src.of.f, i)
}
