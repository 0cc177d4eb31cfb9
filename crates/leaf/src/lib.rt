// The leaves of printing: a writer's answer, and the writers that copy. Each is lent only the unwritten rest of the text, a part that begins at its
// current end, and answers how much it wrote or that there is no room, and then it has touched nothing.
#![tactic(auto)]

ghost use Rattle.definition.specs.Words.{part};
ghost use Rattle.leaf.specs.Leaf.{Leaf};

#[derive(Clone, Copy, PartialEq, Eq)]
pub struct NoRoom;

// How many bytes were written.
pub type Wrote = Result<usize, NoRoom>;

// Writes the bytes of src, one by one: the library's copy would have the archives ask their host for memcpy and memmove.
pub fn copy(dst: &mut [u8], src: &[u8]) -> Wrote
    ensures { Leaf src.now dst.old result dst.new }
{
    let n = src.len();
    if dst.len() < n {
        return Err(NoRoom);
    }
    for i in 0..n {
        dst[i] = src[i];
    }
    Ok(n)
}

// Writes n bytes of f from `at` on, as far as f has them.
pub fn copy_part(dst: &mut [u8], f: &[u8], at: usize, n: usize) -> Wrote
    ensures { Leaf (part f.now at n) dst.old result dst.new }
{
    let rest = &f[at.min(f.len())..];
    copy(dst, &rest[..n.min(rest.len())])
}
