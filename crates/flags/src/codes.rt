// The condition codes that a branch may have.
ghost use Rattle.std.specs.Prelude.{◌≡◌, [], ◌∷◌};
ghost use Rattle.definition.specs.Words.{part};
ghost use Rattle.definition.specs.Condition.{code_of};
ghost use Rattle.flags.specs.Views.{code_enum};

use crate::spans::clip;

#[derive(Clone, Copy)]
pub enum Code {
    E,
    Ne,
    L,
    Ge,
    G,
    Le,
    B,
    Ae,
    A,
    Be,
    S,
    Ns,
}

// By the one byte of a text.
#[tactic(auto, unfolding(definition::specs::Texts::same, definition::specs::Condition::code_of, crate::specs::Views::code_one, crate::specs::Views::code_enum))]
fn code_of_one(a: u8) -> Option<Code>
    ensures { result ≡ code_enum (code_of (a ∷ [])) }
{
    match a {
        b'e' => Some(Code::E),
        b'l' => Some(Code::L),
        b'g' => Some(Code::G),
        b'b' => Some(Code::B),
        b'a' => Some(Code::A),
        b's' => Some(Code::S),
        _ => None,
    }
}

// By the byte before an `e`.
#[tactic(auto, unfolding(definition::specs::Texts::same, definition::specs::Condition::code_of, crate::specs::Views::code_one, crate::specs::Views::code_enum))]
fn code_with_e(a: u8) -> Option<Code>
    ensures { result ≡ code_enum (code_of (a ∷ 101 ∷ [])) }
{
    match a {
        b'n' => Some(Code::Ne),
        b'g' => Some(Code::Ge),
        b'l' => Some(Code::Le),
        b'a' => Some(Code::Ae),
        b'b' => Some(Code::Be),
        _ => None,
    }
}

// By two bytes.
#[tactic(auto, unfolding(definition::specs::Texts::same, definition::specs::Condition::code_of, crate::specs::Views::code_one, crate::specs::Views::code_enum))]
fn code_of_two(a: u8, b: u8) -> Option<Code>
    ensures { result ≡ code_enum (code_of (a ∷ b ∷ [])) }
{
    match b {
        b'e' => code_with_e(a),
        b's' => (a == b'n').then_some(Code::Ns),
        _ => None,
    }
}

// The code that n bytes from `at` on are, as far as the file has them.
pub fn code_of(f: &[u8], at: usize, n: usize) -> Option<Code>
    ensures { result ≡ code_enum (code_of (part f.now at n)) }
{
    let p = clip(f, at, n);
    match &f[p.start..p.end] {
        [a] => code_of_one(*a),
        [a, b] => code_of_two(*a, *b),
        _ => None,
    }
}
