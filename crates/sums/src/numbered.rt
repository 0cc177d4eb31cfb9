// A file whose values have numbers: what every function over stack offsets reads.
ghost use Rattle.records.specs.Bytes.{Bytes};
ghost use Rattle.sums.specs.Ground.{Ground};

use places::Places;

#[derive(Clone, Copy)]
pub struct Numbered<'a> {
    pub f: &'a [u8],
    // The section of the texts.
    pub t: u32,
    // Where the places of each section begin, and each place's number.
    pub places: Places,
    pub numbers: &'a [u32],
    pub ghost bytes: { Bytes f.now },
    pub ghost ground: { Ground f.now numbers.now places },
}
