// Numbers and parts out of the file's bytes, and texts compared. Total: what is outside the file reads 0.
#![tactic(auto)]

ghost use Rattle.std.specs.Prelude.{◌≡◌, ◌<◌, ◌≤◌, ◌+◌, length, drop};
ghost use Rattle.definition.specs.Texts.{same, begins, contains};
ghost use Rattle.definition.specs.Words.{word, long, part};

// What stands from place i on.
fn rest(s: &[u8], i: usize) -> &[u8]
    ensures { result.now ≡ drop i s.now }
{
    s.get(i..).unwrap_or(&[])
}

// The 32-bit number of four bytes that are there, little-endian.
fn four(f: &[u8], i: usize) -> u32
    requires { i + 4 ≤ length f.now }
    ensures { result ≡ word f.now i }
{
    u32::from_le_bytes([f[i], f[i + 1], f[i + 2], f[i + 3]])
}

// The 32-bit number at byte i; 0 where it does not lie wholly inside.
pub fn word_at(f: &[u8], i: usize) -> u32
    ensures { result ≡ word f.now i }
{
    match f.len().checked_sub(4) {
        Some(last) if i <= last => four(f, i),
        _ => 0,
    }
}

// The 64-bit number at byte i: its low word, then its high word. Where all eight bytes are there, one test says so.
pub fn long_at(f: &[u8], i: usize) -> u64
    ensures { result ≡ long f.now i }
{
    match f.len().checked_sub(8) {
        Some(last) if i <= last => {
            let low = four(f, i);
            let high = four(f, i + 4);
            u64::from(low) + 4294967296 * u64::from(high)
        }
        _ => u64::from(word_at(f, i)),
    }
}

// Whether two texts are equal.
pub fn same_text(s: &[u8], t: &[u8]) -> bool
    ensures { result ≡ same s.now t.now }
{
    s.len() == t.len() && s.iter().zip(t).all(|(a, b)| a == b)
}

// Whether w stands in s from byte i on, byte by byte, since most places differ at the first.
pub fn begins_at(w: &[u8], s: &[u8], i: usize) -> bool
    ensures { result ≡ begins w.now (drop i s.now) }
{
    if s.len() < i {
        return w.len() == 0;
    }
    if s.len() - i < w.len() {
        return false;
    }
    for k in 0..w.len() {
        if w[k] != s[i + k] {
            return false;
        }
    }
    true
}

// Whether w stands somewhere in s.
pub fn contains_text(w: &[u8], s: &[u8]) -> bool
    ensures { result ≡ contains w.now s.now }
{
    for i in 0..s.len() {
        if begins_at(w, s, i) {
            return true;
        }
    }
    w.is_empty()
}

// How many of n bytes from `at` on there are.
pub fn part_size(f: &[u8], at: usize, n: usize) -> usize
    ensures { result ≡ length (part f.now at n) }
{
    n.min(rest(f, at).len())
}
