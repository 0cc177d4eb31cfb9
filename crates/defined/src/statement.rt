// The statements of a file in which all is owned, each with the place where its items begin.
ghost use Rattle.std.specs.Prelude.{◌≡◌, true, ◌+◌, ◌-◌, ◌<◌};
ghost use Rattle.std.specs.Iterator.{at_most};
ghost use Rattle.definition.specs.Edition.{statements};
ghost use Rattle.definition.specs.Contents.{size};
ghost use Rattle.definition.specs.Owners.{value_items, first_item};
ghost use Rattle.definition.specs.Shape.{owned};
ghost use Rattle.defined.specs.Defined.{first_value};

use crate::value::next_item;
use records::contents::{STATEMENTS, size_of};
use records::owners::expr_items;

// Statement i, whose items begin at place `at`.
#[derive(Clone, Copy)]
pub struct Statement<'a> {
    pub f: &'a [u8],
    pub i: u32,
    pub at: u32,
    pub ghost few: { first_item f.now (size f.now statements) < 4294967296 },
    pub ghost inside: { i < size f.now statements },
    pub ghost begins: { at ≡ first_item f.now i },
}

impl<'a> Statement<'a> {
    // The place of its first value. What is owned comes out exactly, so the sums fit.
    pub fn first_value(self) -> u32
        ensures place { result ≡ first_value self.entry.f.now self.entry.i }
        ensures fits { result + value_items self.entry.f.now self.entry.i < 4294967296 }
    {
        self.at + expr_items(self.f, self.i)
    }
}

// Those from statement i on, whose items begin at place `at`.
#[derive(Drop)]
pub struct Statements<'a> {
    f: &'a [u8],
    n: u32,
    i: u32,
    at: u32,
    ghost whole: { owned f.now ≡ true },
    ghost few: { first_item f.now (size f.now statements) < 4294967296 },
    ghost all: { n ≡ size f.now statements },
    ghost begins: { at ≡ first_item f.now i },
}

impl<'a> Statements<'a> {
    ghost use Rattle.defined.specs.Statements.{Begins};

    // All of them.
    pub fn of(f: &'a [u8]) -> Self
        requires { owned f.now ≡ true }
        ensures { Begins f.now result }
    {
        Statements {
            f,
            n: size_of(f, STATEMENTS),
            i: 0,
            at: 0,
        }
    }
}

impl<'a> Iterator for Statements<'a> {
    type Item = Statement<'a>;

    ghost use Rattle.defined.specs.Statements.{steps, left};

    ghost next_gives = { steps };

    ghost remaining = { λ s. at_most (left s) };

    fn next(&mut self) -> Option<Statement<'a>> {
        if self.i >= self.n {
            return None;
        }
        let s = Statement {
            f: self.f,
            i: self.i,
            at: self.at,
        };
        self.at = next_item(self.f, self.i, self.at);
        self.i += 1;
        Some(s)
    }
}
