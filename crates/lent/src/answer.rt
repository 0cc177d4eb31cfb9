// The answers in numbers: to the caller, and of lowering.
ghost use Rattle.std.specs.Prelude.{◌≡◌};
ghost use Rattle.lent.specs.Answers.{refused_with, listed_with, answer_of};

use passes::sweeps::TooDeep;
use structure::answers::Counts;

// The number of the refusal with no counts, or 0 with what the listing has: plain numbers, as C reads them.
#[repr(C)]
#[derive(Clone, Copy)]
pub struct Answer {
    pub number: u32,
    pub lines: usize,
    pub tokens: usize,
    pub bytes: usize,
    pub ifs: usize,
    pub loops: usize,
    pub tests: usize,
}

// What lowering answers: the number of the refusal, or 0 and how many lines there are, as C reads them.
#[repr(C)]
#[derive(Clone, Copy)]
pub struct Lowered {
    pub number: u32,
    pub lines: usize,
}

pub fn refused(n: u32) -> Answer
    ensures { result ≡ refused_with n }
{
    Answer {
        number: n,
        lines: 0,
        tokens: 0,
        bytes: 0,
        ifs: 0,
        loops: 0,
        tests: 0,
    }
}

fn listed(c: Counts) -> Answer
    ensures { result ≡ listed_with c }
{
    Answer {
        number: 0,
        lines: c.lines,
        tokens: c.tokens,
        bytes: c.bytes,
        ifs: c.ifs,
        loops: c.loops,
        tests: c.tests,
    }
}

// What structuring answers.
#[tactic(auto, unfolding(crate::specs::Answers::answer_of))]
pub fn answer_of(s: Result<Counts, TooDeep>) -> Answer
    ensures { result ≡ answer_of s }
{
    match s {
        Ok(c) => listed(c),
        Err(TooDeep) => refused(9),
    }
}
