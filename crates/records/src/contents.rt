// Where each section stands, how many records it has, and the words of its records.
ghost use Rattle.std.specs.Prelude.{◌≡◌, ◌≤◌, ℕ, List};
ghost use Rattle.definition.specs.Words.{word, long};
ghost use Rattle.definition.specs.Contents.{contents_word, offset, size, place, arg_at, block_word, phi_word, input_at, stmt_word, item_word, expr_word, name_word};
ghost use Rattle.definition.specs.Contents.{block_long, stmt_long, expr_long, name_long};

use words::{long_at, word_at};

// The sections by their place in the contents: numbers, since an edition counts through them.
pub const ARGS: u32 = 0;

pub const BLOCKS: u32 = 1;

pub const PHIS: u32 = 2;

pub const INPUTS: u32 = 3;

pub const STATEMENTS: u32 = 4;

pub const LISTS: u32 = 5;

pub const EXPRESSIONS: u32 = 6;

pub const NAMES: u32 = 7;

// Word k of section s in the contents.
fn contents_word(f: &[u8], s: u32, k: u32) -> u32
    ensures { result ≡ contents_word f.now s k }
{
    word_at(f, 16 + 8 * (s as usize) + 4 * (k as usize))
}

// The byte at which section s begins.
pub fn offset_of(f: &[u8], s: u32) -> u32
    ensures { result ≡ offset f.now s }
{
    contents_word(f, s, 0)
}

// How many records section s has.
pub fn size_of(f: &[u8], s: u32) -> u32
    ensures { result ≡ size f.now s }
{
    contents_word(f, s, 1)
}

// The byte at which word k of record i stands, in section s of records of w words.
fn place_of(f: &[u8], s: u32, w: u32, i: u32, k: u32) -> usize
    requires { w ≤ 16 }
    ensures { result ≡ place f.now s w i k }
{
    offset_of(f, s) as usize + 4 * ((w as usize) * (i as usize) + k as usize)
}

// A number of a record, and how it is read at a byte.
pub trait Number {
    ghost at: { List ℕ → ℕ → Self };

    fn read(f: &[u8], i: usize) -> Self
        ensures { result ≡ at f.now i };
}

impl Number for u32 {
    ghost at = { word };

    fn read(f: &[u8], i: usize) -> Self {
        word_at(f, i)
    }
}

impl Number for u64 {
    ghost at = { long };

    fn read(f: &[u8], i: usize) -> Self {
        long_at(f, i)
    }
}

// The number there.
pub fn field<T: Number>(f: &[u8], s: u32, w: u32, i: u32, k: u32) -> T
    requires { w ≤ 16 }
    ensures { result ≡ T.at f.now (place f.now s w i k) }
{
    T::read(f, place_of(f, s, w, i, k))
}

// Words of the records by section.
pub fn arg_at(f: &[u8], i: u32) -> u32
    ensures { result ≡ arg_at f.now i }
{
    field(f, ARGS, 1, i, 0)
}

pub fn block_word(f: &[u8], i: u32, k: u32) -> u32
    ensures { result ≡ block_word f.now i k }
{
    field(f, BLOCKS, 10, i, k)
}

pub fn phi_word(f: &[u8], i: u32, k: u32) -> u32
    ensures { result ≡ phi_word f.now i k }
{
    field(f, PHIS, 4, i, k)
}

pub fn input_at(f: &[u8], i: u32) -> u32
    ensures { result ≡ input_at f.now i }
{
    field(f, INPUTS, 1, i, 0)
}

pub fn stmt_word(f: &[u8], i: u32, k: u32) -> u32
    ensures { result ≡ stmt_word f.now i k }
{
    field(f, STATEMENTS, 11, i, k)
}

pub fn item_word(f: &[u8], i: u32, k: u32) -> u32
    ensures { result ≡ item_word f.now i k }
{
    field(f, LISTS, 2, i, k)
}

pub fn expr_word(f: &[u8], i: u32, k: u32) -> u32
    ensures { result ≡ expr_word f.now i k }
{
    field(f, EXPRESSIONS, 5, i, k)
}

pub fn name_word(f: &[u8], i: u32, k: u32) -> u32
    ensures { result ≡ name_word f.now i k }
{
    field(f, NAMES, 4, i, k)
}

// 64-bit numbers that begin at word k.
pub fn block_long(f: &[u8], i: u32, k: u32) -> u64
    ensures { result ≡ block_long f.now i k }
{
    field(f, BLOCKS, 10, i, k)
}

pub fn stmt_long(f: &[u8], i: u32, k: u32) -> u64
    ensures { result ≡ stmt_long f.now i k }
{
    field(f, STATEMENTS, 11, i, k)
}

pub fn expr_long(f: &[u8], i: u32, k: u32) -> u64
    ensures { result ≡ expr_long f.now i k }
{
    field(f, EXPRESSIONS, 5, i, k)
}

pub fn name_long(f: &[u8], i: u32, k: u32) -> u64
    ensures { result ≡ name_long f.now i k }
{
    field(f, NAMES, 4, i, k)
}
