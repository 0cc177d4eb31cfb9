// The name of every value: parameters for argument registers' entry values, locals for the rest, in the order of the walk over the blocks.
#![tactic(auto)]

mod phis;
mod position;
mod runs;
mod statements;
mod tables;
mod walk;

ghost use Rattle.std.specs.Prelude.{◌≡◌, ◌<◌, length, replicate};
ghost use Rattle.uses.specs.Orders.{Ordered};
ghost use Rattle.naming.specs.Walk.{params_seen};
ghost use Rattle.names.specs.Given.{Numbered};
ghost use Rattle.naming.specs.Given.{NamesAll};

use crate::tables::Tables;
use crate::walk::name_blocks;
use names::entry::params;
use places::places_of;
use slices::{get, put};
use zeros::clear;

// The classes of the first n argument registers' entry values are parameters; where two are one class the first counts.
fn see_params(seen: &mut [u32], numbers: &[u32], roots: &[u32], n: u32)
    requires { n < 2147483648 }
    ensures { seen.new ≡ params_seen numbers.now roots.now n seen.old }
{
    for i in (0..n).rev() {
        let r = get(roots, get(numbers, i as usize) as usize);
        put(seen, r as usize, 2 * i + 2);
    }
}

// Also clears `seen` again.
pub fn naming<'a>(
    names: &mut [u32],
    seen: &mut [u32],
    f: &'a [u8],
    numbers: &'a [u32],
    roots: &'a [u32],
    places: &'a [u32],
    entry: &[u32],
    order: &'a [u32],
    starts: &'a [u32],
)
    requires numbered { Numbered f.now numbers.now }
    requires ordered { Ordered f.now (length order.now) (length starts.now) order.now starts.now }
    requires numbers_len_bound { length numbers.now < 2147483648 }
    requires names_value { (names.old ≡ replicate (length numbers.now) 0) × (seen.old ≡ replicate (length numbers.now) 0) }
    ensures { NamesAll f.now (length numbers.now) roots.now places.now entry.now names.new seen.new }
{
    let n = params(f, numbers, entry);
    see_params(seen, numbers, roots, n);
    let of = Tables {
        f,
        numbers,
        roots,
        away: places,
        order,
        starts,
        at: places_of(f),
    };
    name_blocks(names, seen, &of);
    clear(seen);
}
