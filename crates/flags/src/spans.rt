// Texts compared where they stand in the file.
ghost use Rattle.std.specs.Prelude.{◌≡◌};
ghost use Rattle.definition.specs.Texts.{same};
ghost use Rattle.definition.specs.Words.{part};
ghost use Rattle.flags.specs.Inside.{Inside};

use words::same_text;

// A part of the file that lies inside.
#[derive(Clone, Copy)]
pub struct Span {
    pub start: usize,
    pub end: usize,
}

// n bytes from `at` on, as far as the file has them.
pub fn clip(f: &[u8], at: usize, n: usize) -> Span
    ensures { Inside f.now at n result }
{
    let end = f.len();
    Span {
        start: at.min(end),
        end: at.saturating_add(n).min(end),
    }
}

// Whether n bytes from i on are the m bytes from j on.
pub fn same_parts(f: &[u8], i: usize, n: usize, j: usize, m: usize) -> bool
    ensures { result ≡ same (part f.now i n) (part f.now j m) }
{
    let p = clip(f, i, n);
    let q = clip(f, j, m);
    same_text(&f[p.start..p.end], &f[q.start..q.end])
}
