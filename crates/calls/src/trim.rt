// What is taken off a call's spelling before its address is read.
ghost use Rattle.std.specs.Prelude.{◌≡◌};
ghost use Rattle.definition.specs.Words.{part};
ghost use Rattle.definition.specs.Texts.{txt, begins};
ghost use Rattle.calls.specs.Spelled.{Trimmed};

use crate::parts::begins_part;

// Whether n bytes from `at` on begin with `sub_`.
fn begins_sub(f: &[u8], at: usize, n: usize) -> bool
    ensures { result ≡ begins (txt "sub_") (part f.now at n) }
{
    begins_part(f, at, n, b"sub_")
}

// How many of n bytes from `at` on go: every leading `sub_`, four bytes at a time, so the loop is no count by one.
pub fn trim_sub(f: &[u8], at: usize, n: usize) -> usize
    ensures { Trimmed f.now at n result }
{
    let mut k = 0;
    while begins_sub(f, at + k, n - k) {
        k += 4;
    }
    k
}
