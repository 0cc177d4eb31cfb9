// What lowering is given: what expressions are printed from, how often values are read, which classes really are, and which blocks have a label.
ghost use Rattle.std.specs.Prelude.{length};
ghost use Rattle.labels.specs.Labels.{Labels};
ghost use Rattle.lower.specs.Given.{Known};

use render::source::Source;

#[derive(Clone, Copy)]
pub struct Given<'a> {
    pub src: Source<'a>,
    pub live: &'a [u32],
    pub phi: &'a [u32],
    pub roots: &'a [u32],
    pub marks: &'a [u32],
    pub labels: &'a [u32],
    pub ghost known: { Known src.of.f.now src.of.t src.of.places src.of.numbers.now src.offs.now src.placed.now src.names.now live.now phi.now roots.now marks.now },
    pub ghost targets: { Labels src.of.f.now (length labels.now) labels.now },
}
