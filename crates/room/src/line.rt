// Lines: where one ends, its five numbers are written.
ghost use Rattle.room.specs.Room.{option_of};
ghost use Rattle.room.specs.Ending.{Ended};

use crate::out::Out;
use crate::place::stop;

// The numbers of a line.
const ROW: usize = 5;

// Ends the line. Its numbers are: whether it has an address, the address, its indent, the end of its tokens, 0.
pub fn end_line(lines: &mut [u64], out: Out, indent: u64, at: Option<u64>) -> Out
    ensures { Ended lines.old out indent (option_of at) lines.new result }
{
    if out.full {
        return out;
    }
    let n = out.lines;
    if n < lines.len() / ROW {
        let i = ROW * n;
        let row = [
            u64::from(at.is_some()),
            at.unwrap_or(0),
            indent,
            out.tokens as u64,
            0,
        ];
        lines[i..i + ROW].copy_from_slice(&row);
        return Out {
            lines: n + 1,
            start: out.tokens,
            ..out
        };
    }
    stop(out)
}
