// Runs the analyses in order over lent tables: the numbers of values, who reads them, and the variables with their names.
#![tactic(auto)]

ghost use Rattle.std.specs.Prelude.{length};
ghost use Rattle.analyses.specs.Tables.{Unnumbered, Valued, Before, ReadAs, Shared, Unplaced, Placed, Nameable, Nameless, Named};

use inline::tables::Tables;
use names::entry::entry_reads;
use naming::naming;
use reads::{live_reads, phi_reads};

// The key and the number of every place. Heads and next are scratch, and are left as zeros.
pub fn number_values(
    keys: &mut [u64],
    numbers: &mut [u32],
    heads: &mut [u32],
    next: &mut [u32],
    f: &[u8],
)
    requires { Unnumbered f.now keys.old numbers.old heads.old next.old }
    ensures { Valued f.now (length keys.old) keys.new numbers.new heads.new next.new }
{
    values::keys::keys(keys, f);
    values::numbers::numbers(numbers, heads, next, keys);
}

// What statements and phis read, and which expressions load.
pub fn read_tables(
    order: &mut [u32],
    starts: &mut [u32],
    loads: &mut [u32],
    live: &mut [u32],
    phi: &mut [u32],
    readers: &mut [u32],
    f: &[u8],
    numbers: &[u32],
)
    requires { Before f.now numbers.now order.old starts.old loads.old live.old phi.old readers.old }
    ensures { ReadAs f.now (length numbers.now) order.new starts.new loads.new live.new phi.new readers.new }
{
    uses::order::order(order, starts, f);
    uses::loads::loads(loads, f);
    live_reads(live, f, numbers, order, starts);
    phi_reads(phi, f, numbers);
    reads::readers(readers, f, numbers, order, starts);
}

// The classes of values, and what is written in place.
pub fn variables<'a>(
    roots: &mut [u32],
    places: &mut [u32],
    f: &'a [u8],
    keys: &[u64],
    numbers: &'a [u32],
    loads: &'a [u32],
    live: &'a [u32],
    phi: &'a [u32],
    readers: &'a [u32],
)
    requires shared { Shared f.now keys.now numbers.now loads.now live.now phi.now readers.now }
    requires unplaced { Unplaced (length numbers.now) roots.old places.old }
    ensures { Placed f.now (length numbers.now) roots.new places.new }
{
    classes::classes(roots, f, keys, numbers);
    let of = Tables {
        f,
        numbers,
        live,
        phi,
        readers,
        loads,
    };
    inline::inline(places, &of);
}

// The names, which need both. Seen is scratch, and is left as zeros.
pub fn name_variables(
    names: &mut [u32],
    seen: &mut [u32],
    entry: &mut [u32],
    f: &[u8],
    numbers: &[u32],
    roots: &[u32],
    places: &[u32],
    order: &[u32],
    starts: &[u32],
)
    requires nameable { Nameable f.now numbers.now roots.now places.now order.now starts.now }
    requires nameless { Nameless (length numbers.now) names.old seen.old entry.old }
    ensures { Named f.now (length numbers.now) names.new seen.new entry.new }
{
    entry_reads(entry, f, numbers, order, starts);
    naming(names, seen, f, numbers, roots, places, entry, order, starts);
}
