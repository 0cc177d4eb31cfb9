// Pieces into the room. Each function is lent tokens and text; the writer of a text is lent only the unwritten rest.
ghost use Rattle.std.specs.Prelude.{◌≡◌, ◌++◌};
ghost use Rattle.definition.specs.Texts.{txt};
ghost use Rattle.definition.specs.Numbers.{decimal, num as num_of, slot as slot_of, label as label_of, outward as outward_of};
ghost use Rattle.definition.specs.Registers.{reg_name};
ghost use Rattle.definition.specs.Render.{pointer as pointer_of};
ghost use Rattle.definition.specs.Tokens.{tok};
ghost use Rattle.room.specs.Room.{room_of, emit, emit_all};
ghost use Rattle.pieces.specs.Spelled.{made, piece_if};

use crate::piece::{Made, Named, Piece, put_piece};
use room::out::Out;

// A piece of any kind.
pub fn put(tokens: &mut [u64], text: &mut [u8], out: Out, kind: u32, bytes: &[u8]) -> Out
    ensures { room_of tokens.new text.new result
        ≡ emit (room_of tokens.old text.old out) (tok kind bytes.now) }
{
    put_piece(tokens, text, out, kind, bytes, Piece::Whole)
}

// A piece that is there or not.
pub fn put_if(
    tokens: &mut [u64],
    text: &mut [u8],
    out: Out,
    kind: u32,
    bytes: &[u8],
    there: bool,
) -> Out
    ensures { room_of tokens.new text.new result
        ≡ emit_all (room_of tokens.old text.old out) (piece_if there (tok kind bytes.now)) }
{
    if there {
        return put(tokens, text, out, kind, bytes);
    }
    out
}

// A text that is made of a number.
pub fn put_made(tokens: &mut [u64], text: &mut [u8], out: Out, kind: u32, m: Made) -> Out
    ensures { room_of tokens.new text.new result
        ≡ emit (room_of tokens.old text.old out) (tok kind (made m)) }
{
    put_piece(tokens, text, out, kind, b"", Piece::Made(m))
}

// The constant with the bits c.
pub fn put_num(tokens: &mut [u64], text: &mut [u8], out: Out, c: u64) -> Out
    ensures { room_of tokens.new text.new result
        ≡ emit (room_of tokens.old text.old out) (tok 2 (num_of c)) }
{
    put_made(tokens, text, out, 2, Made::Num(c))
}

// The slot at an offset, which is 2^63 more than it says.
pub fn put_slot(tokens: &mut [u64], text: &mut [u8], out: Out, s: u64) -> Out
    ensures { room_of tokens.new text.new result
        ≡ emit (room_of tokens.old text.old out) (tok 1 (slot_of s)) }
{
    put_made(tokens, text, out, 1, Made::Slot(s))
}

// The label of the block that starts at a.
pub fn put_label(tokens: &mut [u64], text: &mut [u8], out: Out, a: u64) -> Out
    ensures { room_of tokens.new text.new result
        ≡ emit (room_of tokens.old text.old out) (tok 4 (label_of a)) }
{
    put_made(tokens, text, out, 4, Made::Label(a))
}

// A raw address outside, as a token of any kind.
pub fn put_outward(tokens: &mut [u64], text: &mut [u8], out: Out, kind: u32, a: u64) -> Out
    ensures { room_of tokens.new text.new result
        ≡ emit (room_of tokens.old text.old out) (tok kind (outward_of a)) }
{
    put_made(tokens, text, out, kind, Made::Outward(a))
}

// `*(uintN_t *)` for a size in bytes.
pub fn put_pointer(tokens: &mut [u64], text: &mut [u8], out: Out, n: u32) -> Out
    ensures { room_of tokens.new text.new result
        ≡ emit (room_of tokens.old text.old out) (pointer_of n) }
{
    put_made(tokens, text, out, 3, Made::Pointer(n))
}

// The name of a register at a width.
pub fn put_reg(tokens: &mut [u64], text: &mut [u8], out: Out, bits: u32, reg: u32) -> Out
    ensures { room_of tokens.new text.new result
        ≡ emit (room_of tokens.old text.old out) (tok 1 (reg_name bits reg)) }
{
    put_made(tokens, text, out, 1, Made::Register(Named { bits, reg }))
}

// A parameter.
pub fn put_param(tokens: &mut [u64], text: &mut [u8], out: Out, k: u64) -> Out
    ensures { room_of tokens.new text.new result
        ≡ emit (room_of tokens.old text.old out) (tok 1 (txt "a" ++ decimal k)) }
{
    put_made(tokens, text, out, 1, Made::Param(k))
}

// A variable.
pub fn put_local(tokens: &mut [u64], text: &mut [u8], out: Out, k: u64) -> Out
    ensures { room_of tokens.new text.new result
        ≡ emit (room_of tokens.old text.old out) (tok 1 (txt "v" ++ decimal k)) }
{
    put_made(tokens, text, out, 1, Made::Local(k))
}
