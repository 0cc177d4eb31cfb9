// The lines of a Branch.
ghost use Rattle.std.specs.Prelude.{◌≡◌, List, ℕ, ◌+◌, ◌<◌};
ghost use Rattle.definition.specs.Edition.{Edition, blocks};
ghost use Rattle.definition.specs.Contents.{size, text as text_of};
ghost use Rattle.definition.specs.Owners.{block_stmts, first_stmt};
ghost use Rattle.definition.specs.Ssa.{Stmt};
ghost use Rattle.definition.specs.Read.{read};
ghost use Rattle.definition.specs.Lower.{count_set};
ghost use Rattle.room.specs.Room.{sheet_of, write_all, seen_sheet};
ghost use Rattle.lowering.specs.Lowered.{lowered, here_at};
ghost use Rattle.conditions.specs.Pairs.{Set};
ghost use Rattle.gotos.specs.Written.{uses_of};
ghost use Rattle.jumps.specs.Given.{BranchAt};
ghost use Rattle.jumps.specs.Written.{jump_of, plain_of};

use crate::conditional::conditional;
use crate::targets::goal;
use calls::targets::is_block;
use conditions::operands::Pair;
use gotos::jump::{computed, to_block};
use gotos::tail::leave;
use records::owners::{is_dead, stmt_field};
use render::source::Source;
use room::out::Out;

// To a: a block, or out of the function with n list items from `item` on as arguments.
fn jump_to(
    lines: &mut [u64],
    tokens: &mut [u64],
    text: &mut [u8],
    out: Out,
    src: &Source<'_>,
    block: u32,
    i: u32,
    a: u64,
    item: u32,
    n: u32,
) -> Out
    requires block_bound { block < size src.now.of.f.now blocks }
    requires n_bound { item + n < 4294967296 }
    ensures { (E : Edition) → text_of E ≡ src.now.of.t → seen_sheet (sheet_of lines.new tokens.new text.new result)
        ≡ seen_sheet (write_all (sheet_of lines.old tokens.old text.old out) (jump_of E src.now.of.f.now block i a (uses_of E src.now.of.f.now item n))) }
{
    if is_block(src.of.f, a) {
        return to_block(lines, tokens, text, out, src.of.f, block, i, a);
    }
    leave(lines, tokens, text, out, src, i, a, item, n)
}

// A branch without a condition; it is computed where it goes to no address.
fn plain_branch(
    lines: &mut [u64],
    tokens: &mut [u64],
    text: &mut [u8],
    out: Out,
    src: &Source<'_>,
    block: u32,
    i: u32,
    item: u32,
    count: u32,
) -> Out
    requires { BranchAt src.now.of.f.now block i item }
    ensures { (E : Edition) → text_of E ≡ src.now.of.t → seen_sheet (sheet_of lines.new tokens.new text.new result)
        ≡ seen_sheet (write_all (sheet_of lines.old tokens.old text.old out) (plain_of E src.now.of.f.now block i item count)) }
{
    let Some(a) = goal(src.of.f, block, i) else {
        return computed(lines, tokens, text, out, src, i, item);
    };
    let n = count.min(stmt_field(src.of.f, i, 6));
    jump_to(lines, tokens, text, out, src, block, i, a, item, n)
}

// Of the statement i in a block, with `count` argument registers set; its uses are list items from `item` on, and `setter` set the block's flags.
pub fn branch(
    lines: &mut [u64],
    tokens: &mut [u64],
    text: &mut [u8],
    out: Out,
    src: &Source<'_>,
    block: u32,
    i: u32,
    item: u32,
    count: u32,
    setter: Option<Pair>,
) -> Out
    requires branch_at { BranchAt src.now.of.f.now block i item }
    requires set { Set src.now.of.f.now src.now.of.t (first_stmt src.now.of.f.now block) (block_stmts src.now.of.f.now block) setter }
    ensures { (E : Edition) (pend : List Stmt) (set : List ℕ) → text_of E ≡ src.now.of.t → count ≡ count_set set (read E src.now.of.f.now).args
        → seen_sheet (sheet_of lines.new tokens.new text.new result)
        ≡ seen_sheet (write_all (sheet_of lines.old tokens.old text.old out) (lowered E src.now.of.f.now (here_at E src.now.of.f.now block) pend set (first_stmt src.now.of.f.now block + block_stmts src.now.of.f.now block) i)) }
{
    if is_dead(src.of.f, i) {
        return out;
    }
    if stmt_field(src.of.f, i, 0) == 1 {
        return conditional(lines, tokens, text, out, src, block, i, setter);
    }
    plain_branch(lines, tokens, text, out, src, block, i, item, count)
}
