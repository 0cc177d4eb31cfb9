// The target of a call: computed, or direct, and then the name for the address that its spelling holds, or else its spelling.
ghost use Rattle.std.specs.Prelude.{◌≡◌};
ghost use Rattle.definition.specs.Edition.{Edition};
ghost use Rattle.definition.specs.Words.{part};
ghost use Rattle.definition.specs.Contents.{text as text_section, text_at};
ghost use Rattle.definition.specs.Lower.{is_indirect};
ghost use Rattle.definition.specs.Tokens.{symbol};
ghost use Rattle.records.specs.Options.{answer_of};
ghost use Rattle.room.specs.Room.{room_of, emit};
ghost use Rattle.calls.specs.Spelled.{direct_index, direct_text};

use crate::hex::read_hex;
use crate::parts::begins_part;
use crate::trim::trim_sub;
use pieces::from_file::{put_name, put_part};
use records::contents::offset_of;
use room::out::Out;
use text::names::name_for;

// Whether the target that is spelled by `len` bytes of section t from `start` on is computed.
pub fn is_indirect(f: &[u8], t: u32, start: u32, len: u32) -> bool
    ensures { (E : Edition) → text_section E ≡ t → result ≡ is_indirect (text_at E f.now start len) }
{
    let at = offset_of(f, t) as usize + start as usize;
    begins_part(f, at, len as usize, b"[")
}

// The name for the address that n bytes from `at` on hold.
fn name_of(f: &[u8], at: usize, n: usize) -> Option<u32>
    ensures { result ≡ answer_of (direct_index f.now (part f.now at n)) }
{
    let k = trim_sub(f, at, n);
    let a = read_hex(f, at + k, n - k)?;
    name_for(f, a)
}

// The name of a direct target.
pub fn put_direct(
    tokens: &mut [u64],
    text: &mut [u8],
    out: Out,
    f: &[u8],
    t: u32,
    start: u32,
    len: u32,
) -> Out
    ensures { (E : Edition) → text_section E ≡ t → room_of tokens.new text.new result
        ≡ emit (room_of tokens.old text.old out) (symbol (direct_text E f.now (text_at E f.now start len))) }
{
    let at = offset_of(f, t) as usize + start as usize;
    let n = len as usize;
    match name_of(f, at, n) {
        Some(i) => put_name(tokens, text, out, 4, f, t, i),
        None => put_part(tokens, text, out, 4, f, at, n),
    }
}
