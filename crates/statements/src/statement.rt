// A statement: a record around one of seven kinds. Expressions are numbers of nodes.
ghost use Rattle.std.specs.Prelude.{◌≡◌};
ghost use Rattle.statements.specs.Statement.{assign_of, store_of, call_of, branch_of, flags_of, return_of, other_of};
ghost use Rattle.statements.specs.Statement.{kind_record, stmt_record, mark_of};

use crate::items::{Items, expr_run, value_run};
use defined::value::Value;
use records::contents::{stmt_long, stmt_word};
use records::owners::{ASSIGN, BRANCH, CALL, FLAGS, RETURN, STORE, stmt_field, stmt_kind};
use ssa::parts::Text;

// `value` becomes the expression.
#[derive(Clone, Copy)]
pub struct Assign {
    pub value: Value,
    pub expr: u32,
}

// `size` bytes of `value` go to `address`.
#[derive(Clone, Copy)]
pub struct Store {
    pub size: u32,
    pub address: u32,
    pub value: u32,
}

#[derive(Clone, Copy)]
pub struct Call {
    pub target: Text,
    pub args: Items,
    // What it returns, if anything.
    pub returned: Option<Value>,
    pub clobbers: Items,
}

#[derive(Clone, Copy)]
pub struct Branch {
    // The condition code, if it is conditional.
    pub condition: Option<Text>,
    // Where it goes, if to an address.
    pub target: Option<u64>,
    pub uses: Items,
}

// A TEST of two operands, or else a CMP.
#[derive(Clone, Copy)]
pub struct Flags {
    pub test: bool,
    pub left: u32,
    pub right: u32,
}

#[derive(Clone, Copy)]
pub struct Other {
    pub text: Text,
    pub uses: Items,
    pub defs: Items,
}

#[derive(Clone, Copy)]
pub enum Kind {
    Assign(Assign),
    Store(Store),
    Call(Call),
    Branch(Branch),
    Flags(Flags),
    // What is returned, if anything.
    Return(Option<u32>),
    Other(Other),
}

#[derive(Clone, Copy)]
pub struct Stmt {
    pub address: u64,
    // 1 dead, 2 sets the flags, 4 a push.
    pub marks: u32,
    pub kind: Kind,
}

impl Stmt {
    // Whether it sets the flags that a branch tests.
    pub fn flags(self) -> bool
        ensures { result ≡ mark_of self.marks 2 }
    {
        self.marks / 2 % 2 == 1
    }
}

// Each kind from what it is read off: the first fields of the statement, and what only that kind has.
fn assign_of(a: u32, b: u32, c: u32) -> Assign
    ensures { result ≡ assign_of a b c }
{
    Assign {
        value: Value { reg: a, ver: b },
        expr: c,
    }
}

fn store_of(a: u32, b: u32, c: u32) -> Store
    ensures { result ≡ store_of a b c }
{
    Store {
        size: a,
        address: b,
        value: c,
    }
}

fn call_of(a: u32, b: u32, args: Items, there: u32, reg: u32, ver: u32, clobbers: Items) -> Call
    ensures { result ≡ call_of a b args there reg ver clobbers }
{
    Call {
        target: Text { start: a, len: b },
        args,
        returned: (there == 1).then_some(Value { reg, ver }),
        clobbers,
    }
}

fn branch_of(a: u32, b: u32, c: u32, there: u32, address: u64, uses: Items) -> Branch
    ensures { result ≡ branch_of a b c there address uses }
{
    Branch {
        condition: (a == 1).then_some(Text { start: b, len: c }),
        target: (there == 1).then_some(address),
        uses,
    }
}

fn flags_of(a: u32, b: u32, c: u32) -> Flags
    ensures { result ≡ flags_of a b c }
{
    Flags {
        test: a == 1,
        left: b,
        right: c,
    }
}

fn return_of(a: u32, b: u32) -> Option<u32>
    ensures { result ≡ return_of a b }
{
    (a == 1).then_some(b)
}

fn other_of(a: u32, b: u32, uses: Items, defs: Items) -> Other
    ensures { result ≡ other_of a b uses defs }
{
    Other {
        text: Text { start: a, len: b },
        uses,
        defs,
    }
}

// A number that is no kind's reads as an Other, as in the definition; check 4 refuses it.
fn kind_at(f: &[u8], i: u32, first: u32) -> Kind
    ensures { result ≡ kind_record f.now i first }
{
    let a = stmt_field(f, i, 0);
    let b = stmt_field(f, i, 1);
    let c = stmt_field(f, i, 2);
    match stmt_kind(f, i) {
        ASSIGN => Kind::Assign(assign_of(a, b, c)),
        STORE => Kind::Store(store_of(a, b, c)),
        CALL => Kind::Call(call_of(
            a,
            b,
            expr_run(f, i, first),
            stmt_field(f, i, 3),
            stmt_field(f, i, 4),
            stmt_field(f, i, 5),
            value_run(f, i, first),
        )),
        BRANCH => Kind::Branch(branch_of(
            a,
            b,
            c,
            stmt_field(f, i, 3),
            stmt_long(f, i, 8),
            expr_run(f, i, first),
        )),
        FLAGS => Kind::Flags(flags_of(a, b, c)),
        RETURN => Kind::Return(return_of(a, b)),
        _ => Kind::Other(other_of(a, b, expr_run(f, i, first), value_run(f, i, first))),
    }
}

// Statement i, whose list items begin at `first`: the caller goes through the statements in order and carries the place along.
pub fn stmt_at(f: &[u8], i: u32, first: u32) -> Stmt
    ensures { result ≡ stmt_record f.now i first }
{
    Stmt {
        address: stmt_long(f, i, 0),
        marks: stmt_word(f, i, 2),
        kind: kind_at(f, i, first),
    }
}
