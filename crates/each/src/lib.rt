// The registers that a record names, looked at one record by itself. What each rule is, `fields` and `defined` say.
#![tactic(auto, using(std::proofs::lemmas::Bool::Decides::nat_tests))]

ghost use Rattle.std.specs.Prelude.{◌≡◌};
ghost use Rattle.definition.specs.Lists.{all};
ghost use Rattle.definition.specs.Meaning.{is_register, use_register};
ghost use Rattle.defined.specs.Defined.{list_of};
ghost use Rattle.each.specs.Rules.{named};

use defined::value::{REGISTERS, Value};
use records::contents::expr_word;
use records::owners::USE;

pub fn is_register(r: u32) -> bool
    ensures { result ≡ is_register r }
{
    r < REGISTERS
}

// The register of what a statement defines, if it defines a value.
pub fn defined_named(d: Option<Value>) -> bool
    ensures { result ≡ all named (list_of d) }
{
    d.is_none_or(|v| is_register(v.reg))
}

// The register that an expression names, if it is a Use.
#[tactic(auto, using(std::proofs::lemmas::Bool::Decides::nat_tests), unfolding(definition::specs::Meaning::use_register))]
pub fn use_named(f: &[u8], i: u32) -> bool
    ensures { result ≡ use_register f.now i }
{
    expr_word(f, i, 0) != USE || is_register(expr_word(f, i, 1))
}
