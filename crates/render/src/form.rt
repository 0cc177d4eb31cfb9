// What an expression is written as.
ghost use Rattle.std.specs.Prelude.{◌≡◌, ◌&&◌, eqb};
ghost use Rattle.definition.specs.Codes.{t_const};
ghost use Rattle.definition.specs.Edition.{Edition};
ghost use Rattle.definition.specs.Contents.{text, expr_word, expr_long};
ghost use Rattle.text.specs.Supplied.{is_global};
ghost use Rattle.render.specs.Forms.{offset_form, load_form, form_of};

use crate::source::Source;
use records::contents::{expr_long, expr_word};
use records::owners::CONST;
use ssa::node::{Bin, Load, Node, Un, node_at};
use ssa::parts::Text;
use sums::address::stack_off;
use text::names::is_global;

// A global at an address, of which `size` bytes are loaded.
#[derive(Clone, Copy)]
pub struct Global {
    pub address: u64,
    pub size: u32,
}

// What needs no other expression. Offsets are 2^63 more than they say.
#[derive(Clone, Copy)]
pub enum Leaf {
    Number(u64),
    // The address of a slot.
    Address(u64),
    Global(Global),
    Slot(u64),
    Opaque(Text),
}

#[derive(Clone, Copy)]
pub enum Form {
    Leaf(Leaf),
    // A value of this register.
    Use(u32),
    Bin(Bin),
    Un(Un),
    // A load through an address that is neither a global nor a slot.
    Through(Load),
}

// The leaf where an offset is known.
fn by_offset(o: u64, other: Form, leaf: Leaf) -> Form
    ensures { result ≡ offset_form o other leaf }
{
    if o == 0 {
        return other;
    }
    Form::Leaf(leaf)
}

// Whether expression n is a constant that names a global.
fn names_global(f: &[u8], n: u32) -> bool
    ensures { result ≡ (eqb (expr_word f.now n 0) t_const && is_global (expr_long f.now n 1)) }
{
    expr_word(f, n, 0) == CONST && is_global(expr_long(f, n, 1))
}

fn load_form(src: &Source<'_>, n: u32, s: Load) -> Form
    ensures { (E : Edition) → text E ≡ src.now.of.t → result ≡ load_form E src.now.of.f.now n s }
{
    let a = s.child;
    if a >= n {
        return Form::Through(s);
    }
    if names_global(src.of.f, a) {
        return Form::Leaf(Leaf::Global(Global {
            address: expr_long(src.of.f, a, 1),
            size: s.size,
        }));
    }
    let o = stack_off(src.offs, &src.of, a);
    by_offset(o, Form::Through(s), Leaf::Slot(o))
}

// The form of expression n.
pub fn form_of(src: &Source<'_>, n: u32) -> Form
    ensures { (E : Edition) → text E ≡ src.now.of.t → result ≡ form_of E src.now.of.f.now n }
{
    match node_at(src.of.f, n) {
        Node::Const(c) => Form::Leaf(Leaf::Number(c)),
        Node::Use(v) => Form::Use(v.reg),
        Node::Bin(s) => {
            let o = stack_off(src.offs, &src.of, n);
            by_offset(o, Form::Bin(s), Leaf::Address(o))
        }
        Node::Un(s) => Form::Un(s),
        Node::Load(s) => load_form(src, n, s),
        Node::Opaque(x) => Form::Leaf(Leaf::Opaque(x)),
    }
}
