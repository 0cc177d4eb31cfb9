// The goto that closes a block whose last statement does not leave it.
ghost use Rattle.std.specs.Prelude.{◌≡◌, not, cond, ◌||◌, [], ◌<◌};
ghost use Rattle.std.proofs.Math.Option.{some};
ghost use Rattle.definition.specs.Edition.{Edition, blocks};
ghost use Rattle.definition.specs.Contents.{size};
ghost use Rattle.definition.specs.Lists.{among, or_else};
ghost use Rattle.definition.specs.Read.{read};
ghost use Rattle.definition.specs.Lookup.{order, is_next};
ghost use Rattle.definition.specs.Blocks.{closing as closing_of};
ghost use Rattle.labels.specs.Labels.{next_at};
ghost use Rattle.room.specs.Room.{sheet_of, write_all, seen_sheet};
ghost use Rattle.lowering.specs.Lowered.{lowering_of, here_at};

use crate::goto::put_goto;
use calls::targets::is_block;
use labels::is_next;
use room::line::end_line;
use room::out::Out;
use ssa::block::block_at;

// Is no goto needed to a: the next block starts there, or none does.
fn is_left_out(f: &[u8], block: u32, a: u64) -> bool
    requires { block < size f.now blocks }
    ensures { (E : Edition) → result ≡ (is_next (next_at f.now block) a || not (among a (order (read E f.now)))) }
{
    is_next(f, block, a) || !is_block(f, a)
}

// The goto from the block to a.
fn close_to(
    lines: &mut [u64],
    tokens: &mut [u64],
    text: &mut [u8],
    out: Out,
    f: &[u8],
    block: u32,
    a: u64,
) -> Out
    requires { block < size f.now blocks }
    ensures { (E : Edition) → seen_sheet (sheet_of lines.new tokens.new text.new result)
        ≡ seen_sheet (write_all (sheet_of lines.old tokens.old text.old out) (closing_of (lowering_of E f.now) (here_at E f.now block) (some a))) }
{
    if is_left_out(f, block, a) {
        return out;
    }
    let out = put_goto(tokens, text, out, a);
    end_line(lines, out, 1, None)
}

// To where the block falls, or else to where its branch goes.
pub fn closing(
    lines: &mut [u64],
    tokens: &mut [u64],
    text: &mut [u8],
    out: Out,
    f: &[u8],
    block: u32,
    leaves: bool,
) -> Out
    requires { block < size f.now blocks }
    ensures { (E : Edition) → seen_sheet (sheet_of lines.new tokens.new text.new result)
        ≡ seen_sheet (write_all (sheet_of lines.old tokens.old text.old out) (cond leaves [] (closing_of (lowering_of E f.now) (here_at E f.now block) (or_else (here_at E f.now block).block.fall (here_at E f.now block).block.taken)))) }
{
    if leaves {
        return out;
    }
    let b = block_at(f, block);
    let Some(a) = b.fall.or(b.taken) else {
        return out;
    };
    close_to(lines, tokens, text, out, f, block, a)
}
