// Pieces that need no other expression.
ghost use Rattle.std.specs.Prelude.{◌≡◌, [], ◌+◌};
ghost use Rattle.definition.specs.Edition.{Edition};
ghost use Rattle.definition.specs.Words.{part};
ghost use Rattle.definition.specs.Contents.{offset, text as text_section};
ghost use Rattle.definition.specs.Tokens.{tok};
ghost use Rattle.room.specs.Room.{room_of, emit, emit_all, seen};
ghost use Rattle.render.specs.Forms.{address_tokens, cast_tokens, leaf_tokens};

use crate::form::Leaf;
use crate::kinds::{PUNCT, TEXT};
use pieces::from_file::{put_global, put_part};
use pieces::put::{put, put_num, put_pointer, put_slot};
use records::contents::offset_of;
use room::out::Out;
use ssa::parts::Text;

// A text of the file's section t.
pub fn put_text(
    tokens: &mut [u64],
    text: &mut [u8],
    out: Out,
    kind: u32,
    f: &[u8],
    t: u32,
    x: Text,
) -> Out
    ensures { room_of tokens.new text.new result
        ≡ emit (room_of tokens.old text.old out) (tok kind (part f.now (offset f.now t + x.start) x.len)) }
{
    let at = offset_of(f, t) as usize + x.start as usize;
    put_part(tokens, text, out, kind, f, at, x.len as usize)
}

// The stack address at offset s.
pub fn put_address(tokens: &mut [u64], text: &mut [u8], out: Out, s: u64) -> Out
    ensures { seen (room_of tokens.new text.new result)
        ≡ seen (emit_all (room_of tokens.old text.old out) (address_tokens s)) }
{
    let out = put(tokens, text, out, PUNCT, b"&");
    put_slot(tokens, text, out, s)
}

pub fn put_leaf(tokens: &mut [u64], text: &mut [u8], out: Out, f: &[u8], t: u32, l: Leaf) -> Out
    ensures { (E : Edition) → text_section E ≡ t → seen (room_of tokens.new text.new result)
        ≡ seen (emit_all (room_of tokens.old text.old out) (leaf_tokens E f.now l)) }
{
    match l {
        Leaf::Number(c) => put_num(tokens, text, out, c),
        Leaf::Address(s) => put_address(tokens, text, out, s),
        Leaf::Global(g) => put_global(tokens, text, out, f, t, g.address, g.size),
        Leaf::Slot(s) => put_slot(tokens, text, out, s),
        Leaf::Opaque(x) => put_text(tokens, text, out, TEXT, f, t, x),
    }
}

// An expression that is not there.
pub fn put_nothing(tokens: &mut [u64], text: &mut [u8], out: Out) -> Out
    ensures { room_of tokens.new text.new result
        ≡ emit (room_of tokens.old text.old out) (tok 0 []) }
{
    put(tokens, text, out, TEXT, b"")
}

// What stands before the address of a load or a store of n bytes: `*(uintN_t *)` and `(`.
pub fn put_cast(tokens: &mut [u64], text: &mut [u8], out: Out, n: u32) -> Out
    ensures { seen (room_of tokens.new text.new result)
        ≡ seen (emit_all (room_of tokens.old text.old out) (cast_tokens n)) }
{
    let out = put_pointer(tokens, text, out, n);
    put(tokens, text, out, PUNCT, b"(")
}
