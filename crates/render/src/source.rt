// What expressions are printed from: a file whose values have numbers, and what the analyses say of each value by its number.
ghost use Rattle.render.specs.Told.{Told};

use sums::numbered::Numbered;

#[derive(Clone, Copy)]
pub struct Source<'a> {
    pub of: Numbered<'a>,
    // Its stack offset, the statement whose value is written in place of its one use, and its name.
    pub offs: &'a [u64],
    pub placed: &'a [u32],
    pub names: &'a [u32],
    pub ghost told: { Told of.f.now of.t of.places of.numbers.now offs.now placed.now names.now },
}
