// What a piece spells, one writer for all of them, and the one way into the room: the writer is lent only the unwritten rest of the text.
ghost use Rattle.std.specs.Prelude.{◌≡◌};
ghost use Rattle.definition.specs.Tokens.{tok};
ghost use Rattle.leaf.specs.Leaf.{Leaf};
ghost use Rattle.room.specs.Room.{room_of, emit};
ghost use Rattle.pieces.specs.Spelled.{made, spelled};

use crate::fronted::part_behind;
use digits::{Radix, behind, num, pointer, slot};
use leaf::{Wrote, copy, copy_part};
use room::out::Out;
use room::place::{ready, stop, token};
use text::names::{global_name, name_text};
use text::registers::reg_name;

// A register at a width.
#[derive(Clone, Copy, PartialEq, Eq)]
pub struct Named {
    pub bits: u32,
    pub reg: u32,
}

// A text that is made of a number.
#[derive(Clone, Copy, PartialEq, Eq)]
pub enum Made {
    // The constant with these bits.
    Num(u64),
    // The slot at an offset, which is 2^63 more than it says.
    Slot(u64),
    // The label of the block that starts here.
    Label(u64),
    // A raw address outside.
    Outward(u64),
    // `*(uintN_t *)` for a size in bytes.
    Pointer(u32),
    Register(Named),
    // A parameter and a variable.
    Param(u64),
    Local(u64),
}

// n bytes from `at` on.
#[derive(Clone, Copy, PartialEq, Eq)]
pub struct Bytes {
    pub at: usize,
    pub n: usize,
}

// A supplied name, whose text is in section t.
#[derive(Clone, Copy, PartialEq, Eq)]
pub struct Supplied {
    pub t: u32,
    pub i: u32,
}

// The global at c, of so many bytes; the names' texts are in section t.
#[derive(Clone, Copy, PartialEq, Eq)]
pub struct Global {
    pub t: u32,
    pub c: u64,
    pub size: u32,
}

// A piece: made of a number, or out of bytes that are lent with it.
#[derive(Clone, Copy, PartialEq, Eq)]
pub enum Piece {
    Made(Made),
    Whole,
    Part(Bytes),
    Name(Supplied),
    Global(Global),
    // A condition that is not known, by its name.
    Flags(Bytes),
}

fn write_made(dst: &mut [u8], m: Made) -> Wrote
    ensures { Leaf (made m) dst.old result dst.new }
{
    match m {
        Made::Num(c) => num(dst, c),
        Made::Slot(s) => slot(dst, s),
        Made::Label(a) => behind(dst, b"loc_", Radix::Upper, a),
        Made::Outward(a) => behind(dst, b"*0x", Radix::Lower, a),
        Made::Pointer(n) => pointer(dst, n),
        Made::Register(x) => reg_name(dst, x.bits, x.reg),
        Made::Param(k) => behind(dst, b"a", Radix::Decimal, k),
        Made::Local(k) => behind(dst, b"v", Radix::Decimal, k),
    }
}

// The piece's text at the beginning of dst.
pub fn write(dst: &mut [u8], f: &[u8], p: Piece) -> Wrote
    ensures { Leaf (spelled f.now p) dst.old result dst.new }
{
    match p {
        Piece::Made(m) => write_made(dst, m),
        Piece::Whole => copy(dst, f),
        Piece::Part(x) => copy_part(dst, f, x.at, x.n),
        Piece::Name(x) => name_text(dst, f, x.t, x.i),
        Piece::Global(x) => global_name(dst, f, x.t, x.c, x.size),
        Piece::Flags(x) => part_behind(dst, b"__flags_", f, x.at, x.n),
    }
}

// A piece of any kind.
pub fn put_piece(
    tokens: &mut [u64],
    text: &mut [u8],
    out: Out,
    kind: u32,
    f: &[u8],
    p: Piece,
) -> Out
    ensures { room_of tokens.new text.new result
        ≡ emit (room_of tokens.old text.old out) (tok kind (spelled f.now p)) }
{
    if ready(tokens, text.len(), out, kind) {
        let from = out.bytes;
        let wrote = write(&mut text[from..], f, p);
        return token(tokens, out, kind, wrote);
    }
    stop(out)
}
