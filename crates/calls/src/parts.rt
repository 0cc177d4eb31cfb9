// What a part of the file begins with.
ghost use Rattle.std.specs.Prelude.{◌≡◌};
ghost use Rattle.definition.specs.Words.{part};
ghost use Rattle.definition.specs.Texts.{begins};

use words::begins_at;

// Whether n bytes from `at` on begin with w.
pub fn begins_part(f: &[u8], at: usize, n: usize, w: &[u8]) -> bool
    ensures { result ≡ begins w.now (part f.now at n) }
{
    w.len() <= n && begins_at(w, f, at)
}
