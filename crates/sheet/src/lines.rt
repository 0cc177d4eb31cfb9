// The numbers of a line, and its tokens: from the end of the line before it to its own.
ghost use Rattle.std.specs.Prelude.{◌≡◌, ◌+◌, ◌*◌, ◌<◌};
ghost use Rattle.definition.specs.Lists.{at};
ghost use Rattle.sheet.specs.Buffers.{first_of, last_of};

use slices::get;

// The numbers of a line.
const ROW: usize = 5;

// The number of a line that is the end of its tokens.
const END: usize = 3;

// Number k of line i.
pub fn line_number(lines: &[u64], i: usize, k: usize) -> u64
    requires { k < 5 }
    ensures { result ≡ at lines.now (5 * i + k) }
{
    if lines.len() / ROW < i {
        return 0;
    }
    get(lines, ROW * i + k)
}

pub fn last_of(lines: &[u64], i: usize) -> usize
    ensures { result ≡ last_of lines.now i }
{
    line_number(lines, i, END) as usize
}

#[tactic(auto, unfolding(crate::specs::Buffers::start_of))]
pub fn first_of(lines: &[u64], i: usize) -> usize
    ensures { result ≡ first_of lines.now i }
{
    if i == 0 { 0 } else { last_of(lines, i - 1) }
}
