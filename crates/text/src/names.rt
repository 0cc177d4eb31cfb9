// The names that the file supplies, and the names of globals.
ghost use Rattle.std.specs.Prelude.{◌≡◌, ◌+◌};
ghost use Rattle.definition.specs.Words.{part};
ghost use Rattle.definition.specs.Contents.{offset};
ghost use Rattle.definition.specs.Lookup.{size_prefix};
ghost use Rattle.records.specs.Options.{answer_of};
ghost use Rattle.leaf.specs.Leaf.{Leaf};
ghost use Rattle.text.specs.Supplied.{name_index, name_text, is_global, global_text};

use digits::{HALF, Radix, behind};
use leaf::{Wrote, copy_part};
use records::contents::{NAMES, name_long, name_word, offset_of, size_of};

// The first name supplied for the address a. Names rise in an accepted file, so a binary search may replace the search there.
pub fn name_for(f: &[u8], a: u64) -> Option<u32>
    ensures { result ≡ answer_of (name_index f.now a) }
{
    (0..size_of(f, NAMES)).find(|i| name_long(f, *i, 0) == a)
}

// Writes n bytes of section t from `start` on, as far as the file has them.
pub fn text_part(dst: &mut [u8], f: &[u8], t: u32, start: u32, n: u32) -> Wrote
    ensures { Leaf (part f.now (offset f.now t + start) n) dst.old result dst.new }
{
    let at = offset_of(f, t) as usize + start as usize;
    copy_part(dst, f, at, n as usize)
}

// Writes name i, whose text is in section t.
pub fn name_text(dst: &mut [u8], f: &[u8], t: u32, i: u32) -> Wrote
    ensures { Leaf (name_text f.now t i) dst.old result dst.new }
{
    let start = name_word(f, i, 2);
    let n = name_word(f, i, 3);
    text_part(dst, f, t, start, n)
}

// Whether the constant with the bits c names a global: from 0x1000 on, and not negative.
#[tactic(auto, unfolding(crate::specs::Supplied::is_global))]
pub fn is_global(c: u64) -> bool
    ensures { result ≡ is_global c }
{
    (0x1000..HALF).contains(&c)
}

// What stands before the address of a global without a name.
#[tactic(auto, unfolding(definition::specs::Lookup::size_prefix))]
fn size_prefix(size: u32) -> &'static [u8]
    ensures { result.now ≡ size_prefix size }
{
    match size {
        1 => b"byte_",
        2 => b"word_",
        4 => b"dword_",
        8 => b"qword_",
        _ => b"unk_",
    }
}

// The global at c, of which `is_global` holds: its name, or else its size's prefix and c.
pub fn global_name(dst: &mut [u8], f: &[u8], t: u32, c: u64, size: u32) -> Wrote
    ensures { Leaf (global_text f.now t c size) dst.old result dst.new }
{
    match name_for(f, c) {
        Some(i) => name_text(dst, f, t, i),
        None => behind(dst, size_prefix(size), Radix::Upper, c),
    }
}
