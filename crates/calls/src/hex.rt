// Hexadecimal numbers of 64 bits, as `from_str_radix` reads them.
ghost use Rattle.std.specs.Prelude.{◌≡◌, ◌+◌, ◌≤◌, length};
ghost use Rattle.std.proofs.Math.Option.{some};
ghost use Rattle.definition.specs.Words.{part};
ghost use Rattle.definition.specs.Numbers.{hex_value, push, read_digits, read_some, read_hex};
ghost use Rattle.records.specs.Options.{answer_of};

use words::part_size;

// The value of a digit, in either case: letters begin at ten.
#[tactic(auto, unfolding(definition::specs::Numbers::hex_value))]
fn digit_value(b: u8) -> Option<u64>
    ensures { result ≡ answer_of (hex_value b) }
{
    match b {
        b'0'..=b'9' => Some(u64::from(b - b'0')),
        b'a'..=b'f' => Some(u64::from(b - b'a' + 10)),
        b'A'..=b'F' => Some(u64::from(b - b'A' + 10)),
        _ => None,
    }
}

// A digit behind the number v.
fn push_digit(v: u64, b: u8) -> Option<u64>
    ensures { result ≡ answer_of (push (some v) (hex_value b)) }
{
    let d = digit_value(b)?;
    let front = v.checked_mul(16)?;
    Some(front + d)
}

// n digits from `at` on.
fn read_digits(f: &[u8], at: usize, n: usize) -> Option<u64>
    requires { at + n ≤ length f.now }
    ensures { result ≡ answer_of (read_digits (some 0) (part f.now at n)) }
{
    let digits = &f[at..at + n];
    let mut v = 0;
    for b in digits {
        v = push_digit(v, *b)?;
    }
    Some(v)
}

// At least one digit.
fn read_some(f: &[u8], at: usize, n: usize) -> Option<u64>
    requires { at + n ≤ length f.now }
    ensures { result ≡ answer_of (read_some (part f.now at n)) }
{
    if n == 0 {
        return None;
    }
    read_digits(f, at, n)
}

// The number that n bytes from `at` on spell, one leading `+` included.
pub fn read_hex(f: &[u8], at: usize, n: usize) -> Option<u64>
    ensures { result ≡ answer_of (read_hex (part f.now at n)) }
{
    let m = part_size(f, at, n);
    if m == 0 {
        return None;
    }
    if f[at] == b'+' {
        return read_some(f, at + 1, m - 1);
    }
    read_some(f, at, m)
}
