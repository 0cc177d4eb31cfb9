// What a comparison with the Rust runs piece by piece: the writer of pieces and the structuring passes, exported.
#![tactic(auto)]

pub mod structuring;

ghost use Rattle.std.specs.Prelude.{◌≡◌};
ghost use Rattle.pieces.specs.Spelled.{spelled};
ghost use Rattle.probe.specs.Counted.{count_of, Counted};
ghost use Rattle.probe.specs.Chosen.{piece_of};

use leaf::{NoRoom, Wrote};
use pieces::piece::{Global, Made, Named, Piece, write};

// How many bytes were written, or the last number of 64 bits where there was no room.
#[tactic(auto, unfolding(crate::specs::Counted::count_of))]
fn count_of(w: Wrote) -> u64
    ensures { result ≡ count_of w }
{
    match w {
        Ok(n) => n as u64,
        Err(NoRoom) => u64::MAX,
    }
}

// A piece by its number and operands, for a host that has no such type.
#[tactic(auto, unfolding(crate::specs::Chosen::piece_of))]
fn piece_of(which: u32, a: u64, b: u32, c: u32) -> Piece
    ensures { result ≡ piece_of which a b c }
{
    match which {
        0 => Piece::Made(Made::Num(a)),
        1 => Piece::Made(Made::Slot(a)),
        2 => Piece::Made(Made::Label(a)),
        3 => Piece::Made(Made::Outward(a)),
        4 => Piece::Made(Made::Pointer(b)),
        5 => Piece::Made(Made::Register(Named { bits: b, reg: c })),
        _ => Piece::Global(Global {
            t: b,
            c: a,
            size: c,
        }),
    }
}

// The text of a piece; a global's name stands in the file.
#[unsafe(no_mangle)]
pub extern "C" fn sorkhelaw_write(
    dst: &mut [u8],
    f: &[u8],
    which: u32,
    a: u64,
    b: u32,
    c: u32,
) -> u64
    ensures { Counted (spelled f.now (piece_of which a b c)) dst.old result dst.new }
{
    count_of(write(dst, f, piece_of(which, a, b, c)))
}
