// Numbers as text: digits to a base, and behind a constant front `num`, `slot` and pointers.
#![tactic(auto)]

ghost use Rattle.std.specs.Prelude.{◌≡◌, ◌++◌, ◌≤◌, ◌<◌, length};
ghost use Rattle.definition.specs.Numbers.{digit as digit_of, hex_upper, num as num_of, slot as slot_of};
ghost use Rattle.definition.specs.Render.{pointer as pointer_of};
ghost use Rattle.leaf.specs.Leaf.{Leaf};
ghost use Rattle.digits.specs.Numeral.{base_of, ten_of, numeral, filled};

use leaf::{NoRoom, Wrote, copy};

// 2^63.
pub const HALF: u64 = 0x8000_0000_0000_0000;

// How digits are written: the base, and the letters above 9.
#[derive(Clone, Copy, PartialEq, Eq)]
pub enum Radix {
    Decimal,
    Lower,
    Upper,
}

#[tactic(auto, unfolding(crate::specs::Numeral::base_of))]
fn base(x: Radix) -> u64
    ensures { (result ≡ base_of x) × (2 ≤ result) × (result ≤ 16) }
{
    match x {
        Radix::Decimal => 10,
        Radix::Lower | Radix::Upper => 16,
    }
}

// The letter for ten.
#[tactic(auto, unfolding(crate::specs::Numeral::ten_of))]
fn ten(x: Radix) -> u8
    ensures { (result ≡ ten_of x) × (result ≤ 97) }
{
    match x {
        Radix::Decimal | Radix::Lower => b'a',
        Radix::Upper => b'A',
    }
}

fn digit(x: Radix, d: u64) -> u8
    requires { d < 16 }
    ensures { result ≡ digit_of (ten_of x) d }
{
    if d < 10 {
        return b'0' + d as u8;
    }
    ten(x) + (d - 10) as u8
}

// How many digits v has. Divisions make the turns, so there is no count to go over.
fn width(x: Radix, v: u64) -> usize
    ensures { (result ≡ length (numeral x v)) × (result ≤ 20) }
{
    let b = base(x);
    let mut n: usize = 1;
    let mut r = v;
    while b <= r {
        r = r / b;
        n += 1;
    }
    n
}

// Writes the last n digits of v over the first n bytes, each in its place.
fn fill(dst: &mut [u8], x: Radix, n: usize, v: u64)
    requires { n ≤ length dst.old }
    ensures { dst.new ≡ filled (base_of x) (ten_of x) n v dst.old }
{
    let b = base(x);
    let mut r = v;
    for i in (0..n).rev() {
        dst[i] = digit(x, r % b);
        r = r / b;
    }
}

// Writes v: one writer for each base and letter case.
pub fn digits(dst: &mut [u8], x: Radix, v: u64) -> Wrote
    ensures { Leaf (numeral x v) dst.old result dst.new }
{
    let n = width(x, v);
    if dst.len() < n {
        return Err(NoRoom);
    }
    fill(dst, x, n, v);
    Ok(n)
}

// Writes v behind a front. The digits go first, so that a refusal touches nothing.
pub fn behind(dst: &mut [u8], front: &[u8], x: Radix, v: u64) -> Wrote
    ensures { Leaf (front.now ++ numeral x v) dst.old result dst.new }
{
    let n = front.len();
    if dst.len() < n {
        return Err(NoRoom);
    }
    let m = digits(&mut dst[n..], x, v)?;
    copy(dst, front)?;
    Ok(n + m)
}

pub fn hex_upper(dst: &mut [u8], v: u64) -> Wrote
    ensures { Leaf (hex_upper v) dst.old result dst.new }
{
    digits(dst, Radix::Upper, v)
}

// The constant with these bits: its sign, then a magnitude up to 9 in decimal, else in hexadecimal.
pub fn num(dst: &mut [u8], bits: u64) -> Wrote
    ensures { Leaf (num_of bits) dst.old result dst.new }
{
    if bits < HALF {
        if bits <= 9 {
            return behind(dst, b"", Radix::Decimal, bits);
        }
        return behind(dst, b"0x", Radix::Lower, bits);
    }
    let m = bits.wrapping_neg();
    if m <= 9 {
        return behind(dst, b"-", Radix::Decimal, m);
    }
    behind(dst, b"-0x", Radix::Lower, m)
}

// The slot at an offset, which is 2^63 more than it says.
pub fn slot(dst: &mut [u8], s: u64) -> Wrote
    ensures { Leaf (slot_of s) dst.old result dst.new }
{
    if s < HALF {
        return behind(dst, b"var_", Radix::Upper, HALF - s);
    }
    behind(dst, b"arg_", Radix::Upper, s - HALF)
}

// `*(uintN_t *)` for a size in bytes. The end goes first, so that a refusal touches nothing.
pub fn pointer(dst: &mut [u8], size: u32) -> Wrote
    ensures { Leaf (pointer_of size).text dst.old result dst.new }
{
    let v = 8 * u64::from(size);
    let n = 6 + width(Radix::Decimal, v);
    if dst.len() < n {
        return Err(NoRoom);
    }
    let m = copy(&mut dst[n..], b"_t *)")?;
    behind(dst, b"*(uint", Radix::Decimal, v)?;
    Ok(n + m)
}
