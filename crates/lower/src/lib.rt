// Lowering: the lines of a function, block by block in the file's order.
#![tactic(auto)]

mod block;
mod given;
mod stmt;

ghost use Rattle.std.specs.Prelude.{◌≡◌};
ghost use Rattle.definition.specs.Edition.{Edition};
ghost use Rattle.definition.specs.Contents.{text as text_of};
ghost use Rattle.definition.specs.Read.{read};
ghost use Rattle.definition.specs.Offsets.{offsets};
ghost use Rattle.definition.specs.Blocks.{lower as lower_of};
ghost use Rattle.room.specs.Blank.{fresh};
ghost use Rattle.room.specs.Room.{sheet_of, seen_sheet, write_all};
ghost use Rattle.lower.specs.Given.{Lowers};

use crate::block::{Walk, lower_block};
use crate::given::Given;
use places::places_of;
use records::contents::{BLOCKS, size_of};
use render::source::Source;
use room::out::Out;
use sums::numbered::Numbered;

// All blocks, from an empty sheet on.
pub fn lower<'a>(
    lines: &mut [u64],
    tokens: &mut [u64],
    text: &mut [u8],
    f: &'a [u8],
    t: u32,
    numbers: &'a [u32],
    offs: &'a [u64],
    placed: &'a [u32],
    names: &'a [u32],
    live: &'a [u32],
    phi: &'a [u32],
    roots: &'a [u32],
    marks: &'a [u32],
    labels: &'a [u32],
) -> Out
    requires { Lowers f.now t numbers.now offs.now placed.now names.now live.now phi.now roots.now marks.now labels.now }
    ensures { (E : Edition) → text_of E ≡ t
        → seen_sheet (sheet_of lines.new tokens.new text.new result)
        ≡ seen_sheet (write_all (sheet_of lines.old tokens.old text.old fresh) (lower_of (read E f.now) (offsets (read E f.now)))) }
{
    let of = Numbered {
        f,
        t,
        places: places_of(f),
        numbers,
    };
    let src = Source {
        of,
        offs,
        placed,
        names,
    };
    let given = Given {
        src,
        live,
        phi,
        roots,
        marks,
        labels,
    };
    let n = size_of(f, BLOCKS);
    let mut w = Walk {
        out: Out::start(),
        stmt: 0,
        item: 0,
    };
    for b in 0..n {
        w = lower_block(lines, tokens, text, w, &given, b);
    }
    w.out
}
