// The end of a statement's line.
ghost use Rattle.std.proofs.Math.Option.{some};
ghost use Rattle.definition.specs.Contents.{stmt_long};
ghost use Rattle.room.specs.Ending.{Ended};

use records::contents::stmt_long;
use room::line::end_line;
use room::out::Out;

// The line of statement i ends, at its address.
pub fn end_stmt(lines: &mut [u64], out: Out, f: &[u8], i: u32) -> Out
    ensures { Ended lines.old out 1 (some (stmt_long f.now i 0)) lines.new result }
{
    end_line(lines, out, 1, Some(stmt_long(f, i, 0)))
}
