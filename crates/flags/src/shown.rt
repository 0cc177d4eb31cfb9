// Which comparison is printed for a condition code, by what set the flags.
ghost use Rattle.std.specs.Prelude.{◌≡◌, Some, true, false};
ghost use Rattle.definition.specs.Condition.{shown as shown_after};
ghost use Rattle.definition.specs.Condition.Setter.{cmp, test, self as alike, result as outcome};
ghost use Rattle.flags.specs.Views.{shown_record, printed, view_code, shown_of};

use crate::codes::Code;
use crate::comparison::{Setter, Shown, Side, Sign};

fn signed(lhs: Side, sign: Sign, rhs: Side) -> Shown
    ensures { result ≡ printed false lhs sign rhs }
{
    Shown {
        unsigned: false,
        lhs,
        sign,
        rhs,
    }
}

// The two operands, unsigned.
fn unsigned(sign: Sign) -> Shown
    ensures { result ≡ printed true Side.Left sign Side.Right }
{
    Shown {
        unsigned: true,
        lhs: Side::Left,
        sign,
        rhs: Side::Right,
    }
}

// Each code has one after a CMP.
#[tactic(auto, unfolding(definition::specs::Condition::shown, crate::specs::Views::view_code, crate::specs::Views::side_of, crate::specs::Views::sign_of))]
fn after_cmp(code: Code) -> Shown
    ensures { Some result ≡ shown_record (shown_after cmp (view_code code)) }
{
    match code {
        Code::E => signed(Side::Left, Sign::Equal, Side::Right),
        Code::Ne => signed(Side::Left, Sign::Unequal, Side::Right),
        Code::L => signed(Side::Left, Sign::Under, Side::Right),
        Code::Ge => signed(Side::Left, Sign::NotUnder, Side::Right),
        Code::G => signed(Side::Left, Sign::Over, Side::Right),
        Code::Le => signed(Side::Left, Sign::NotOver, Side::Right),
        Code::B => unsigned(Sign::Under),
        Code::Ae => unsigned(Sign::NotUnder),
        Code::A => unsigned(Sign::Over),
        Code::Be => unsigned(Sign::NotOver),
        Code::S => signed(Side::Difference, Sign::Under, Side::Nought),
        Code::Ns => signed(Side::Difference, Sign::NotUnder, Side::Nought),
    }
}

#[tactic(auto, unfolding(definition::specs::Condition::shown, crate::specs::Views::view_code, crate::specs::Views::side_of, crate::specs::Views::sign_of))]
fn after_test(code: Code) -> Option<Shown>
    ensures { result ≡ shown_record (shown_after test (view_code code)) }
{
    match code {
        Code::E => Some(signed(Side::Both, Sign::Equal, Side::Nought)),
        Code::Ne => Some(signed(Side::Both, Sign::Unequal, Side::Nought)),
        _ => None,
    }
}

// After a TEST of an operand and itself.
#[tactic(auto, unfolding(definition::specs::Condition::shown, crate::specs::Views::view_code, crate::specs::Views::side_of, crate::specs::Views::sign_of))]
fn after_same(code: Code) -> Option<Shown>
    ensures { result ≡ shown_record (shown_after alike (view_code code)) }
{
    match code {
        Code::E => Some(signed(Side::Left, Sign::Equal, Side::Nought)),
        Code::Ne => Some(signed(Side::Left, Sign::Unequal, Side::Nought)),
        Code::G => Some(signed(Side::Left, Sign::Over, Side::Nought)),
        Code::Le => Some(signed(Side::Left, Sign::NotOver, Side::Nought)),
        Code::S => Some(signed(Side::Left, Sign::Under, Side::Nought)),
        Code::Ns => Some(signed(Side::Left, Sign::NotUnder, Side::Nought)),
        _ => None,
    }
}

#[tactic(auto, unfolding(definition::specs::Condition::shown, crate::specs::Views::view_code, crate::specs::Views::side_of, crate::specs::Views::sign_of))]
fn after_result(code: Code) -> Option<Shown>
    ensures { result ≡ shown_record (shown_after outcome (view_code code)) }
{
    match code {
        Code::E => Some(signed(Side::Left, Sign::Equal, Side::Nought)),
        Code::Ne => Some(signed(Side::Left, Sign::Unequal, Side::Nought)),
        Code::S => Some(signed(Side::Left, Sign::Under, Side::Nought)),
        Code::Ns => Some(signed(Side::Left, Sign::NotUnder, Side::Nought)),
        _ => None,
    }
}

// The comparison after `by`, if there is one; of a text that is no code there is none.
#[tactic(auto, unfolding(crate::specs::Views::view_setter, crate::specs::Views::shown_by, crate::specs::Views::shown_of))]
pub fn shown(by: Setter, code: Option<Code>) -> Option<Shown>
    ensures { result ≡ shown_record (shown_of by code) }
{
    let code = code?;
    match by {
        Setter::Cmp => Some(after_cmp(code)),
        Setter::Test => after_test(code),
        Setter::Same => after_same(code),
        Setter::Result => after_result(code),
    }
}
