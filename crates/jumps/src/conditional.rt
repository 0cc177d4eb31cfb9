// A conditional branch, and the goto to where its block falls.
ghost use Rattle.std.specs.Prelude.{◌≡◌, ◌<◌};
ghost use Rattle.definition.specs.Edition.{Edition, blocks};
ghost use Rattle.definition.specs.Contents.{size, text as text_of};
ghost use Rattle.definition.specs.Owners.{block_stmts, first_stmt};
ghost use Rattle.room.specs.Room.{room_of, emit_all, seen, sheet_of, write_all, seen_sheet};
ghost use Rattle.conditions.specs.Pairs.{Set};
ghost use Rattle.jumps.specs.Written.{condition_of, if_tokens, test_tokens, fall_of, if_lines};

use crate::targets::aim;
use conditions::condition::put_condition;
use conditions::operands::Pair;
use gotos::goto::{name_line, put_goto_name};
use labels::is_next;
use lowering::line::end_stmt;
use pieces::put::put;
use records::owners::stmt_field;
use render::kinds::{KEYWORD, PUNCT, SYMBOL};
use render::source::Source;
use room::out::Out;
use ssa::block::block_at;

// What it tests.
fn put_tested(
    tokens: &mut [u64],
    text: &mut [u8],
    out: Out,
    src: &Source<'_>,
    block: u32,
    i: u32,
    setter: Option<Pair>,
) -> Out
    requires { Set src.now.of.f.now src.now.of.t (first_stmt src.now.of.f.now block) (block_stmts src.now.of.f.now block) setter }
    ensures { (E : Edition) → text_of E ≡ src.now.of.t → seen (room_of tokens.new text.new result)
        ≡ seen (emit_all (room_of tokens.old text.old out) (condition_of E src.now.of.f.now block i)) }
{
    let start = stmt_field(src.of.f, i, 1);
    let len = stmt_field(src.of.f, i, 2);
    put_condition(tokens, text, out, src, setter, start, len)
}

// `if (C`
fn put_if(
    tokens: &mut [u64],
    text: &mut [u8],
    out: Out,
    src: &Source<'_>,
    block: u32,
    i: u32,
    setter: Option<Pair>,
) -> Out
    requires { Set src.now.of.f.now src.now.of.t (first_stmt src.now.of.f.now block) (block_stmts src.now.of.f.now block) setter }
    ensures { (E : Edition) → text_of E ≡ src.now.of.t → seen (room_of tokens.new text.new result)
        ≡ seen (emit_all (room_of tokens.old text.old out) (if_tokens E src.now.of.f.now block i)) }
{
    let out = put(tokens, text, out, KEYWORD, b"if");
    let out = put(tokens, text, out, PUNCT, b" (");
    put_tested(tokens, text, out, src, block, i, setter)
}

// `if (C) goto NAME;`
fn put_test(
    tokens: &mut [u64],
    text: &mut [u8],
    out: Out,
    src: &Source<'_>,
    block: u32,
    i: u32,
    setter: Option<Pair>,
) -> Out
    requires { Set src.now.of.f.now src.now.of.t (first_stmt src.now.of.f.now block) (block_stmts src.now.of.f.now block) setter }
    ensures { (E : Edition) → text_of E ≡ src.now.of.t → seen (room_of tokens.new text.new result)
        ≡ seen (emit_all (room_of tokens.old text.old out) (test_tokens E src.now.of.f.now block i)) }
{
    let a = aim(src.of.f, block, i);
    let out = put_if(tokens, text, out, src, block, i, setter);
    let out = put(tokens, text, out, PUNCT, b") ");
    put_goto_name(tokens, text, out, SYMBOL, src.of.f, src.of.t, a)
}

// The goto to where the block falls, unless the next block is meant.
fn fall_line(
    lines: &mut [u64],
    tokens: &mut [u64],
    text: &mut [u8],
    out: Out,
    f: &[u8],
    t: u32,
    block: u32,
    i: u32,
) -> Out
    requires { block < size f.now blocks }
    ensures { (E : Edition) → text_of E ≡ t → seen_sheet (sheet_of lines.new tokens.new text.new result)
        ≡ seen_sheet (write_all (sheet_of lines.old tokens.old text.old out) (fall_of E f.now block i)) }
{
    let Some(a) = block_at(f, block).fall else {
        return out;
    };
    if is_next(f, block, a) {
        return out;
    }
    name_line(lines, tokens, text, out, SYMBOL, f, t, i, a)
}

// Its line, and the goto to where the block falls.
pub fn conditional(
    lines: &mut [u64],
    tokens: &mut [u64],
    text: &mut [u8],
    out: Out,
    src: &Source<'_>,
    block: u32,
    i: u32,
    setter: Option<Pair>,
) -> Out
    requires block_bound { block < size src.now.of.f.now blocks }
    requires set { Set src.now.of.f.now src.now.of.t (first_stmt src.now.of.f.now block) (block_stmts src.now.of.f.now block) setter }
    ensures { (E : Edition) → text_of E ≡ src.now.of.t → seen_sheet (sheet_of lines.new tokens.new text.new result)
        ≡ seen_sheet (write_all (sheet_of lines.old tokens.old text.old out) (if_lines E src.now.of.f.now block i)) }
{
    let out = put_test(tokens, text, out, src, block, i, setter);
    let out = end_stmt(lines, out, src.of.f, i);
    fall_line(lines, tokens, text, out, src.of.f, src.of.t, block, i)
}
