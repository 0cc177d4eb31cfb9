// One statement, by its kind. Flags print nothing of their own.
ghost use Rattle.std.specs.Prelude.{◌≡◌, List, ℕ};
ghost use Rattle.definition.specs.Edition.{Edition};
ghost use Rattle.definition.specs.Contents.{text as text_of};
ghost use Rattle.definition.specs.Owners.{block_stmts, first_stmt};
ghost use Rattle.definition.specs.Read.{read};
ghost use Rattle.definition.specs.Lower.{count_set};
ghost use Rattle.calls.specs.Waiting.{pending};
ghost use Rattle.room.specs.Room.{sheet_of, seen_sheet, write_all};
ghost use Rattle.lowering.specs.Lowered.{lowered, here_at};
ghost use Rattle.conditions.specs.Pairs.{Set};
ghost use Rattle.lower.specs.Given.{StmtAt};

use crate::given::Given;
use calling::call::call;
use conditions::operands::Pair;
use jumps::branch::branch;
use plain::assign::assign;
use plain::other::other;
use plain::returns::returns;
use plain::store::store;
use room::out::Out;
use statements::statement::{Kind, stmt_at};

// Statement i of a block, with `count` argument registers set; its list items begin at `item`, pushes wait from statement `from` on, `setter` set the block's flags.
pub fn stmt(
    lines: &mut [u64],
    tokens: &mut [u64],
    text: &mut [u8],
    out: Out,
    given: &Given<'_>,
    block: u32,
    i: u32,
    end: u32,
    item: u32,
    from: u32,
    count: u32,
    setter: Option<Pair>,
) -> Out
    requires stmt_at { StmtAt given.now.src.of.f.now block i end item }
    requires set { Set given.now.src.of.f.now given.now.src.of.t (first_stmt given.now.src.of.f.now block) (block_stmts given.now.src.of.f.now block) setter }
    ensures { (E : Edition) (set : List ℕ) → text_of E ≡ given.now.src.of.t → count ≡ count_set set (read E given.now.src.of.f.now).args
        → seen_sheet (sheet_of lines.new tokens.new text.new result)
        ≡ seen_sheet (write_all (sheet_of lines.old tokens.old text.old out) (lowered E given.now.src.of.f.now (here_at E given.now.src.of.f.now block) (pending E given.now.src.of.f.now from i) set end i)) }
{
    match stmt_at(given.src.of.f, i, item).kind {
        Kind::Assign(_) => {
            assign(
                lines,
                tokens,
                text,
                out,
                &given.src,
                given.roots,
                given.marks,
                i,
                end,
            )
        }
        Kind::Store(_) => { store(lines, tokens, text, out, &given.src, i, end) }
        Kind::Call(_) => {
            call(
                lines, tokens, text, out, &given.src, given.live, given.phi, i, item, from, count,
            )
        }
        Kind::Branch(_) => {
            branch(
                lines, tokens, text, out, &given.src, block, i, item, count, setter,
            )
        }
        Kind::Flags(_) => out,
        Kind::Return(_) => { returns(lines, tokens, text, out, &given.src, i, end) }
        Kind::Other(_) => {
            other(
                lines, tokens, text, out, &given.src, given.live, given.phi, i, end, item,
            )
        }
    }
}
