// Pieces whose text stands in the file, or behind a front that does.
ghost use Rattle.std.specs.Prelude.{◌≡◌, ◌++◌};
ghost use Rattle.definition.specs.Texts.{txt};
ghost use Rattle.definition.specs.Tokens.{tok};
ghost use Rattle.definition.specs.Words.{part};
ghost use Rattle.text.specs.Supplied.{name_text, global_text};
ghost use Rattle.room.specs.Room.{room_of, emit};

use crate::piece::{Bytes, Global, Piece, Supplied, put_piece};
use room::out::Out;

// n bytes of the file from `at` on.
pub fn put_part(
    tokens: &mut [u64],
    text: &mut [u8],
    out: Out,
    kind: u32,
    f: &[u8],
    at: usize,
    n: usize,
) -> Out
    ensures { room_of tokens.new text.new result
        ≡ emit (room_of tokens.old text.old out) (tok kind (part f.now at n)) }
{
    put_piece(tokens, text, out, kind, f, Piece::Part(Bytes { at, n }))
}

// Name i that the file supplies, whose text is in section t.
pub fn put_name(
    tokens: &mut [u64],
    text: &mut [u8],
    out: Out,
    kind: u32,
    f: &[u8],
    t: u32,
    i: u32,
) -> Out
    ensures { room_of tokens.new text.new result
        ≡ emit (room_of tokens.old text.old out) (tok kind (name_text f.now t i)) }
{
    put_piece(tokens, text, out, kind, f, Piece::Name(Supplied { t, i }))
}

// The global at c: its name, or else its size's prefix and c.
pub fn put_global(
    tokens: &mut [u64],
    text: &mut [u8],
    out: Out,
    f: &[u8],
    t: u32,
    c: u64,
    size: u32,
) -> Out
    ensures { room_of tokens.new text.new result
        ≡ emit (room_of tokens.old text.old out) (tok 4 (global_text f.now t c size)) }
{
    put_piece(
        tokens,
        text,
        out,
        4,
        f,
        Piece::Global(Global { t, c, size }),
    )
}

// A condition that is not known, by its name in the file.
pub fn put_flags(
    tokens: &mut [u64],
    text: &mut [u8],
    out: Out,
    f: &[u8],
    at: usize,
    n: usize,
) -> Out
    ensures { room_of tokens.new text.new result
        ≡ emit (room_of tokens.old text.old out) (tok 3 (txt "__flags_" ++ part f.now at n)) }
{
    put_piece(tokens, text, out, 3, f, Piece::Flags(Bytes { at, n }))
}
