// What set the flags, by operands that can be printed: expressions of the file, or the value that a statement assigns.
ghost use Rattle.std.specs.Prelude.{◌≡◌, ◌+◌, ◌≤◌};
ghost use Rattle.definition.specs.Edition.{Edition, statements};
ghost use Rattle.definition.specs.Contents.{size, text as text_of};
ghost use Rattle.room.specs.Room.{room_of, emit_all, seen};
ghost use Rattle.conditions.specs.Assigns.{Assigns};
ghost use Rattle.conditions.specs.Pairs.{assigned_tokens, operand_tokens, Fit, Set};

use crate::assigned::assigning;
use flags::comparison::{Setter, Setting};
use flags::setter::setter;
use records::contents::{STATEMENTS, size_of};
use records::owners::stmt_field;
use render::expr::{expr, value};
use render::source::Source;
use room::out::Out;

#[derive(Clone, Copy)]
pub enum Operand {
    Node(u32),
    Assigned(u32),
}

// A setter with its two operands.
#[derive(Clone, Copy)]
pub struct Pair {
    pub by: Setter,
    pub left: Operand,
    pub right: Operand,
}

// What the last marked of the block's `count` statements from `first` on set the flags by, if by anything.
pub fn operands(f: &[u8], t: u32, first: u32, count: u32) -> Option<Pair>
    requires { first + count ≤ size f.now statements }
    ensures { Set f.now t first count result }
{
    match setter(f, t, first, count)? {
        Setting::Operands(o) => Some(Pair {
            by: o.by,
            left: Operand::Node(o.left),
            right: Operand::Node(o.right),
        }),
        Setting::Result(i) => {
            let k = assigning(f, first, count, i);
            Some(Pair {
                by: Setter::Result,
                left: Operand::Assigned(k),
                right: Operand::Assigned(k),
            })
        }
    }
}

// The value that statement i assigns.
fn put_assigned(tokens: &mut [u64], text: &mut [u8], out: Out, src: &Source<'_>, i: u32) -> Out
    requires { Assigns src.now.of.f.now i }
    ensures { (E : Edition) → text_of E ≡ src.now.of.t → seen (room_of tokens.new text.new result)
        ≡ seen (emit_all (room_of tokens.old text.old out) (assigned_tokens E src.now.of.f.now i)) }
{
    let pos = size_of(src.of.f, STATEMENTS);
    let place = src.of.places.stmts + i as usize;
    let reg = stmt_field(src.of.f, i, 0);
    value(tokens, text, out, src, pos, place, reg, false)
}

// An operand, behind all statements.
pub fn put_operand(
    tokens: &mut [u64],
    text: &mut [u8],
    out: Out,
    src: &Source<'_>,
    x: Operand,
) -> Out
    requires { Fit src.now.of.f.now x }
    ensures { (E : Edition) → text_of E ≡ src.now.of.t → seen (room_of tokens.new text.new result)
        ≡ seen (emit_all (room_of tokens.old text.old out) (operand_tokens E src.now.of.f.now x)) }
{
    let pos = size_of(src.of.f, STATEMENTS);
    match x {
        Operand::Node(n) => { expr(tokens, text, out, src, pos, n, false) }
        Operand::Assigned(i) => { put_assigned(tokens, text, out, src, i) }
    }
}
