// Two-operand operators: they lose every trailing `s`, and stand between spaces.
ghost use Rattle.std.specs.Prelude.{◌≡◌, [], ◌∷◌};
ghost use Rattle.definition.specs.Edition.{Edition};
ghost use Rattle.definition.specs.Texts.{trim_end};
ghost use Rattle.definition.specs.Words.{part};
ghost use Rattle.definition.specs.Contents.{text as text_section, text_at};
ghost use Rattle.definition.specs.Render.{operator};
ghost use Rattle.room.specs.Room.{room_of, emit_all, seen};

use crate::kinds::PUNCT;
use pieces::from_file::put_part;
use pieces::put::put;
use records::contents::offset_of;
use room::out::Out;
use ssa::parts::Text;
use words::part_size;

// How many of n bytes from `from` on are left without every trailing `s`.
fn trimmed(f: &[u8], from: usize, n: usize) -> usize
    ensures { part f.now from result ≡ trim_end 115 (part f.now from n) }
{
    for k in (0..part_size(f, from, n)).rev() {
        if f[from + k] != b's' {
            return k + 1;
        }
    }
    0
}

// A two-operand operator, between spaces.
pub fn put_operator(tokens: &mut [u64], text: &mut [u8], out: Out, f: &[u8], t: u32, x: Text) -> Out
    ensures { (E : Edition) → text_section E ≡ t → seen (room_of tokens.new text.new result)
        ≡ seen (emit_all (room_of tokens.old text.old out) (operator (text_at E f.now x.start x.len) ∷ [])) }
{
    let from = offset_of(f, t) as usize + x.start as usize;
    let n = trimmed(f, from, x.len as usize);
    let out = put(tokens, text, out, PUNCT, b" ");
    let out = put_part(tokens, text, out, PUNCT, f, from, n);
    put(tokens, text, out, PUNCT, b" ")
}
