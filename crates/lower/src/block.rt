// A block: its label, its statements, the goto that closes it.
ghost use Rattle.std.specs.Prelude.{◌≡◌, [], ◌+◌, ◌<◌};
ghost use Rattle.definition.specs.Edition.{Edition, blocks};
ghost use Rattle.definition.specs.Contents.{size, text as text_of};
ghost use Rattle.definition.specs.Owners.{block_stmts, first_stmt};
ghost use Rattle.definition.specs.Blocks.{lower_stmts, lower_block};
ghost use Rattle.room.specs.Room.{sheet_of, seen_sheet, write_all};
ghost use Rattle.lowering.specs.Lowered.{lowering_of, here_at};
ghost use Rattle.conditions.specs.Pairs.{Set};
ghost use Rattle.lower.specs.Given.{Stands};

use crate::given::Given;
use crate::stmt::stmt;
use calls::ends::last_leaves;
use calls::pushes::from_behind;
use calls::sets::set_behind;
use conditions::operands::{Pair, operands};
use defined::value::next_item;
use gotos::closing::closing;
use gotos::label::label;
use records::owners::block_stmts;
use room::out::Out;

// What is written, and where the next statement and its list items begin.
#[derive(Clone, Copy)]
pub struct Walk {
    pub out: Out,
    pub stmt: u32,
    pub item: u32,
}

// The statements of a block that ends before `end` and whose flags `setter` set. No pushes wait at first, and no argument register is set.
fn stmts(
    lines: &mut [u64],
    tokens: &mut [u64],
    text: &mut [u8],
    w: Walk,
    given: &Given<'_>,
    block: u32,
    end: u32,
    setter: Option<Pair>,
) -> Walk
    requires block_bound { (block < size given.now.src.of.f.now blocks) × (Stands given.now.src.of.f.now (first_stmt given.now.src.of.f.now block) w) × (end ≡ first_stmt given.now.src.of.f.now block + block_stmts given.now.src.of.f.now block) }
    requires set { Set given.now.src.of.f.now given.now.src.of.t (first_stmt given.now.src.of.f.now block) (block_stmts given.now.src.of.f.now block) setter }
    ensures { (Stands given.now.src.of.f.now end result) × ((E : Edition) → text_of E ≡ given.now.src.of.t
        → seen_sheet (sheet_of lines.new tokens.new text.new result.out)
        ≡ seen_sheet (write_all (sheet_of lines.old tokens.old text.old w.out) (lower_stmts (lowering_of E given.now.src.of.f.now) (here_at E given.now.src.of.f.now block) [] [] (here_at E given.now.src.of.f.now block).block.stmts))) }
{
    let mut out = w.out;
    let mut item = w.item;
    let mut from = w.stmt;
    let mut count = 0;
    for i in w.stmt..end {
        out = stmt(
            lines, tokens, text, out, given, block, i, end, item, from, count, setter,
        );
        item = next_item(given.src.of.f, i, item);
        from = from_behind(given.src.of.f, i, from);
        count = set_behind(given.src.of.f, i, count);
    }
    Walk {
        out,
        stmt: end,
        item,
    }
}

pub fn lower_block(
    lines: &mut [u64],
    tokens: &mut [u64],
    text: &mut [u8],
    w: Walk,
    given: &Given<'_>,
    block: u32,
) -> Walk
    requires block_bound { (block < size given.now.src.of.f.now blocks) × (Stands given.now.src.of.f.now (first_stmt given.now.src.of.f.now block) w) }
    ensures { (Stands given.now.src.of.f.now (first_stmt given.now.src.of.f.now (block + 1)) result) × ((E : Edition) → text_of E ≡ given.now.src.of.t
        → seen_sheet (sheet_of lines.new tokens.new text.new result.out)
        ≡ seen_sheet (write_all (sheet_of lines.old tokens.old text.old w.out) (lower_block (lowering_of E given.now.src.of.f.now) (here_at E given.now.src.of.f.now block)))) }
{
    let first = w.stmt;
    let n = block_stmts(given.src.of.f, block);
    let leaves = last_leaves(given.src.of.f, first, n);
    let setter = operands(given.src.of.f, given.src.of.t, first, n);
    let out = label(
        lines,
        tokens,
        text,
        w.out,
        given.src.of.f,
        given.labels,
        block,
    );
    let begun = Walk { out, ..w };
    let v = stmts(lines, tokens, text, begun, given, block, first + n, setter);
    let out = closing(lines, tokens, text, v.out, given.src.of.f, block, leaves);
    Walk { out, ..v }
}
