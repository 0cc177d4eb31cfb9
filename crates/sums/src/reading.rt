// What is read off expression nodes: the values that they use, operators, and sums with a constant.
ghost use Rattle.std.specs.Prelude.{◌≡◌, ◌+◌, ◌<◌, length};
ghost use Rattle.definition.specs.Words.{part};
ghost use Rattle.sums.specs.Address.{value_at, single, op_byte, used_at, const_at, sum_at};

use crate::sums::signed;
use records::contents::{expr_long, expr_word, offset_of};
use records::owners::{CONST, USE};
use slices::get;

// What the table says of the value at place i behind `from`.
pub fn value_at(tab: &[u64], numbers: &[u32], from: usize, i: u32) -> u64
    requires { from + i < length numbers.now }
    ensures { result ≡ value_at tab.now numbers.now from i }
{
    let v = get(numbers, from + i as usize);
    get(tab, v as usize)
}

// The byte of a text that has one. A text that the file's end cuts off is as long as it is there.
#[tactic(auto, using(crate::proofs::Nodes::byte_past, crate::proofs::Nodes::byte_none, crate::proofs::Nodes::byte_one, crate::proofs::Nodes::byte_last, crate::proofs::Nodes::byte_more))]
fn byte_of(f: &[u8], i: usize, n: u32) -> u8
    ensures { result ≡ single (part f.now i n) }
{
    if n == 0 || f.len() <= i {
        return 0;
    }
    if n == 1 || i + 1 == f.len() {
        return f[i];
    }
    0
}

pub fn op_byte(f: &[u8], t: u32, n: u32) -> u8
    ensures { result ≡ op_byte f.now t n }
{
    byte_of(
        f,
        offset_of(f, t) as usize + expr_word(f, n, 1) as usize,
        expr_word(f, n, 2),
    )
}

// What is known of expression n, if it is a value.
pub fn used_at(tab: &[u64], f: &[u8], numbers: &[u32], exprs: usize, n: u32) -> u64
    requires { exprs + n < length numbers.now }
    ensures { result ≡ used_at (value_at tab.now numbers.now exprs) f.now n }
{
    if expr_word(f, n, 0) == USE {
        return value_at(tab, numbers, exprs, n);
    }
    0
}

// Whether the children of expression n are lower and the right one is a constant.
#[tactic(auto, unfolding(crate::specs::Address::const_at))]
pub fn const_at(f: &[u8], n: u32) -> bool
    ensures { result ≡ const_at f.now n }
{
    let b = expr_word(f, n, 4);
    expr_word(f, n, 3) < n && b < n && expr_word(f, b, 0) == CONST
}

pub fn sum_at(tab: &[u64], f: &[u8], t: u32, numbers: &[u32], exprs: usize, n: u32) -> u64
    requires { exprs + n < length numbers.now }
    ensures { result ≡ sum_at (value_at tab.now numbers.now exprs) f.now t n }
{
    if !const_at(f, n) {
        return 0;
    }
    let s = used_at(tab, f, numbers, exprs, expr_word(f, n, 3));
    signed(s, op_byte(f, t, n), expr_long(f, expr_word(f, n, 4), 1))
}
