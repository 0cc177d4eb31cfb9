// An expression node, by its tag. Children are numbers of nodes.
ghost use Rattle.std.specs.Prelude.{◌≡◌};
ghost use Rattle.ssa.specs.Node.{node_record};

use crate::parts::Text;
use defined::value::Value;
use records::contents::{expr_long, expr_word};
use records::owners::{BIN, CONST, LOAD, UN, USE};

#[derive(Clone, Copy)]
pub struct Bin {
    pub op: Text,
    pub left: u32,
    pub right: u32,
}

#[derive(Clone, Copy)]
pub struct Un {
    pub op: Text,
    pub child: u32,
}

#[derive(Clone, Copy)]
pub struct Load {
    pub size: u32,
    pub child: u32,
}

#[derive(Clone, Copy)]
pub enum Node {
    // A constant is its 64 bits.
    Const(u64),
    Use(Value),
    Bin(Bin),
    Un(Un),
    Load(Load),
    Opaque(Text),
}

// A number that is no tag reads as an Opaque, as in the definition; check 4 refuses it.
pub fn node_at(f: &[u8], n: u32) -> Node
    ensures { result ≡ node_record f.now n }
{
    let a = expr_word(f, n, 1);
    let b = expr_word(f, n, 2);
    match expr_word(f, n, 0) {
        CONST => Node::Const(expr_long(f, n, 1)),
        USE => Node::Use(Value { reg: a, ver: b }),
        BIN => Node::Bin(Bin {
            op: Text { start: a, len: b },
            left: expr_word(f, n, 3),
            right: expr_word(f, n, 4),
        }),
        UN => Node::Un(Un {
            op: Text { start: a, len: b },
            child: expr_word(f, n, 3),
        }),
        LOAD => Node::Load(Load { size: a, child: b }),
        _ => Node::Opaque(Text { start: a, len: b }),
    }
}
