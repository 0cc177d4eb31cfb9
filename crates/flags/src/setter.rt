// What set the flags that a branch tests.
ghost use Rattle.std.specs.Prelude.{◌≡◌, Some, map, ◌+◌, ◌≤◌};
ghost use Rattle.std.proofs.Math.Option.{none};
ghost use Rattle.definition.specs.Edition.{Edition, statements};
ghost use Rattle.definition.specs.Lists.{range};
ghost use Rattle.definition.specs.Contents.{size, text};
ghost use Rattle.definition.specs.Read.{all_trees, kind_at, stmt_at};
ghost use Rattle.definition.specs.Condition.{setting_of, last_setter, setter_of};
ghost use Rattle.ssa.specs.View.{option_of};
ghost use Rattle.statements.specs.View.{view_kind};
ghost use Rattle.statements.specs.declared.statement.Kind.TheVariants.{Flags as FlagsKind};
ghost use Rattle.flags.specs.Views.{view_setting};
ghost use Rattle.flags.specs.declared.comparison.Setting.TheVariants.{Operands as OperandsOf};
ghost use Rattle.flags.specs.Marked.{last_marked};

use crate::comparison::{Operands, Setter, Setting};
use crate::same::same_expr;
use defined::value::RSP;
use statements::statement::{Flags, Kind, stmt_at};

// The last statement that is marked as setting the flags, dead or live, wherever it stands.
fn last_marked(f: &[u8], first: u32, count: u32) -> Option<u32>
    requires { first + count ≤ size f.now statements }
    ensures { option_of result ≡ last_marked f.now none (range first count) }
{
    for i in (first..first + count).rev() {
        if stmt_at(f, i, 0).flags() {
            return Some(i);
        }
    }
    None
}

// A CMP, a TEST, or a TEST of an operand and itself.
fn compared(f: &[u8], t: u32, c: Flags) -> Operands
    ensures { (E : Edition) → text E ≡ t → view_setting E f.now (Some (OperandsOf result)) ≡ setting_of (view_kind E f.now (all_trees E f.now) (FlagsKind c)) }
{
    let by = if !c.test {
        Setter::Cmp
    } else if same_expr(f, t, c.left, c.right) {
        Setter::Same
    } else {
        Setter::Test
    };
    Operands {
        by,
        left: c.left,
        right: c.right,
    }
}

// What statement i sets the flags by, if by anything. List items do not matter to it.
fn setting_at(f: &[u8], t: u32, i: u32) -> Option<Setting>
    ensures { (E : Edition) → text E ≡ t
        → view_setting E f.now result ≡ setting_of (kind_at E f.now (all_trees E f.now) i) }
{
    match stmt_at(f, i, 0).kind {
        Kind::Flags(c) => Some(Setting::Operands(compared(f, t, c))),
        Kind::Assign(a) => (a.value.reg != RSP).then_some(Setting::Result(i)),
        _ => None,
    }
}

// What the last marked of the block's `count` statements from `first` on set the flags by.
pub fn setter(f: &[u8], t: u32, first: u32, count: u32) -> Option<Setting>
    requires { first + count ≤ size f.now statements }
    ensures { (E : Edition) → text E ≡ t → view_setting E f.now result
        ≡ setter_of (last_setter none (map (stmt_at E f.now (all_trees E f.now)) (range first count))) }
{
    setting_at(f, t, last_marked(f, first, count)?)
}
