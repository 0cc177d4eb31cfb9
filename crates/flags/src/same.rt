// Whether two expressions are equal, node by node.
ghost use Rattle.std.specs.Prelude.{◌≡◌};
ghost use Rattle.definition.specs.Edition.{Edition};
ghost use Rattle.definition.specs.Contents.{text};
ghost use Rattle.definition.specs.Texts.{same};
ghost use Rattle.definition.specs.Ssa.{eqe};
ghost use Rattle.definition.specs.Read.{tree_at, trees, all_trees};
ghost use Rattle.flags.specs.Nodes.{text_in, node_below};

use crate::spans::same_parts;
use records::contents::{EXPRESSIONS, offset_of, size_of};
use ssa::node::{Node, node_at};
use ssa::parts::Text;

// Node a, where it is below m; any other counts as an Opaque without text.
fn node_below(f: &[u8], m: u32, a: u32) -> Node
    ensures { result ≡ node_below f.now m a }
{
    if a < m {
        return node_at(f, a);
    }
    Node::Opaque(Text { start: 0, len: 0 })
}

fn same_texts(f: &[u8], t: u32, a: Text, b: Text) -> bool
    ensures { result ≡ same (text_in f.now t a) (text_in f.now t b) }
{
    let o = offset_of(f, t) as usize;
    same_parts(
        f,
        o + a.start as usize,
        a.len as usize,
        o + b.start as usize,
        b.len as usize,
    )
}

// Node a below m and node b below n. A child counts where it is below its parent, so that the bound falls.
#[tactic(auto, using(crate::proofs::Nodes::bound_falls))]
fn same_below(f: &[u8], t: u32, m: u32, a: u32, n: u32, b: u32) -> bool
    ensures { (E : Edition) → text E ≡ t
        → result ≡ eqe (tree_at (trees E f.now m) a) (tree_at (trees E f.now n) b) }
{
    match (node_below(f, m, a), node_below(f, n, b)) {
        (Node::Const(c), Node::Const(d)) => c == d,
        (Node::Use(v), Node::Use(w)) => v.reg == w.reg && v.ver == w.ver,
        (Node::Bin(p), Node::Bin(q)) => {
            same_texts(f, t, p.op, q.op)
                && same_below(f, t, a, p.left, b, q.left)
                && same_below(f, t, a, p.right, b, q.right)
        }
        (Node::Un(p), Node::Un(q)) => {
            same_texts(f, t, p.op, q.op) && same_below(f, t, a, p.child, b, q.child)
        }
        (Node::Load(p), Node::Load(q)) => {
            p.size == q.size && same_below(f, t, a, p.child, b, q.child)
        }
        (Node::Opaque(p), Node::Opaque(q)) => same_texts(f, t, p, q),
        _ => false,
    }
}

// Expressions a and b of the file.
pub fn same_expr(f: &[u8], t: u32, a: u32, b: u32) -> bool
    ensures { (E : Edition) → text E ≡ t
        → result ≡ eqe (tree_at (all_trees E f.now) a) (tree_at (all_trees E f.now) b) }
{
    let n = size_of(f, EXPRESSIONS);
    same_below(f, t, n, a, n, b)
}
