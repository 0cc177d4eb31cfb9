// A file, and the tables that the walk over it reads.
ghost use Rattle.records.specs.Bytes.{Bytes};
ghost use Rattle.naming.specs.Given.{Laid};

use places::Places;

#[derive(Clone, Copy)]
pub struct Tables<'a> {
    pub f: &'a [u8],
    // Each place's number; by that number the root of the value's class, and whether the value is written in place.
    pub numbers: &'a [u32],
    pub roots: &'a [u32],
    pub away: &'a [u32],
    // The nodes that each statement reads, and where each statement's begin.
    pub order: &'a [u32],
    pub starts: &'a [u32],
    pub at: Places,
    pub ghost bytes: { Bytes f.now },
    pub ghost laid: { Laid f.now at order.now starts.now },
}
