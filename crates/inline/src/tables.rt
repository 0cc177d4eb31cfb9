// A file, and the tables that say how its values are read.
ghost use Rattle.records.specs.Bytes.{Bytes};
ghost use Rattle.inline.specs.Placing.{Told};

#[derive(Clone, Copy)]
pub struct Tables<'a> {
    pub f: &'a [u8],
    // Each place's number; by that number how often live statements read the value, whether a phi does, and which statement reads it last.
    pub numbers: &'a [u32],
    pub live: &'a [u32],
    pub phi: &'a [u32],
    pub readers: &'a [u32],
    // Which expressions hold a load.
    pub loads: &'a [u32],
    pub ghost bytes: { Bytes f.now },
    pub ghost told: { Told f.now numbers.now live.now phi.now readers.now loads.now },
}
