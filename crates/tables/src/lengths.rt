// Whether every table has its length, by the lengths.
ghost use Rattle.std.specs.Prelude.{◌≡◌};
ghost use Rattle.tables.specs.Tables.{long_places, long_records, all_long};

// Numbers for each place of the largest file that may name a value.
pub const PLACES: usize = 7696;

// Numbers for each expression, for each statement and one more, for each block.
pub const EXPRESSIONS: usize = 2048;

pub const STARTS: usize = 1025;

pub const BLOCKS: usize = 320;

// Five tables by place.
#[tactic(auto, unfolding(crate::specs::Tables::long_places))]
fn long_places(a: usize, b: usize, c: usize, d: usize, e: usize) -> bool
    ensures { result ≡ long_places a b c d e }
{
    a == PLACES && b == PLACES && c == PLACES && d == PLACES && e == PLACES
}

// Those by record.
#[tactic(auto, unfolding(crate::specs::Tables::long_records))]
fn long_records(order: usize, starts: usize, loads: usize, labels: usize) -> bool
    ensures { result ≡ long_records order starts loads labels }
{
    order == EXPRESSIONS && starts == STARTS && loads == EXPRESSIONS && labels == BLOCKS
}

#[tactic(auto, unfolding(crate::specs::Tables::all_long))]
pub fn are_long(
    keys: usize,
    numbers: usize,
    spare: usize,
    offs: usize,
    order: usize,
    starts: usize,
    loads: usize,
    live: usize,
    phi: usize,
    roots: usize,
    places: usize,
    names: usize,
    marks: usize,
    labels: usize,
) -> bool
    ensures { result ≡ all_long keys numbers spare offs order starts loads live phi roots places names marks labels }
{
    long_places(keys, numbers, spare, offs, live)
        && long_places(phi, roots, places, names, marks)
        && long_records(order, starts, loads, labels)
}
