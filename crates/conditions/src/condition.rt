// The condition of a branch: the comparison that its code makes of what set the flags, or the flags by their name.
ghost use Rattle.std.specs.Prelude.{◌≡◌, Some};
ghost use Rattle.definition.specs.Edition.{Edition};
ghost use Rattle.definition.specs.Words.{part};
ghost use Rattle.definition.specs.Contents.{text as text_of, text_at};
ghost use Rattle.room.specs.Room.{room_of, emit_all, seen};
ghost use Rattle.conditions.specs.Pairs.{found_tokens, Fits, FitsFound};

use crate::operands::Pair;
use crate::side::put_shown;
use flags::codes::code_of;
use flags::shown::shown;
use pieces::from_file::put_flags;
use records::contents::offset_of;
use render::source::Source;
use room::out::Out;

// By the operands p and the code that n bytes of the file from `at` on spell.
fn put_compared(
    tokens: &mut [u64],
    text: &mut [u8],
    out: Out,
    src: &Source<'_>,
    p: Pair,
    at: usize,
    n: usize,
) -> Out
    requires { Fits src.now.of.f.now p }
    ensures { (E : Edition) → text_of E ≡ src.now.of.t → seen (room_of tokens.new text.new result)
        ≡ seen (emit_all (room_of tokens.old text.old out) (found_tokens E src.now.of.f.now (Some p) (part src.now.of.f.now at n))) }
{
    let Some(c) = shown(p.by, code_of(src.of.f, at, n)) else {
        return put_flags(tokens, text, out, src.of.f, at, n);
    };
    put_shown(tokens, text, out, src, p, c)
}

// By what set the flags of the block; the code is spelled by `len` bytes of section t from `start` on.
pub fn put_condition(
    tokens: &mut [u64],
    text: &mut [u8],
    out: Out,
    src: &Source<'_>,
    setter: Option<Pair>,
    start: u32,
    len: u32,
) -> Out
    requires { FitsFound src.now.of.f.now setter }
    ensures { (E : Edition) → text_of E ≡ src.now.of.t → seen (room_of tokens.new text.new result)
        ≡ seen (emit_all (room_of tokens.old text.old out) (found_tokens E src.now.of.f.now setter (text_at E src.now.of.f.now start len))) }
{
    let at = offset_of(src.of.f, src.of.t) as usize + start as usize;
    let n = len as usize;
    let Some(p) = setter else {
        return put_flags(tokens, text, out, src.of.f, at, n);
    };
    put_compared(tokens, text, out, src, p, at, n)
}
