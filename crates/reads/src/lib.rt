// How often live statements read each value, whether a phi does, and which live statement reads it last: tables by value number.
#![tactic(auto)]

ghost use Rattle.std.specs.Prelude.{◌≡◌, List, ℕ, ◌+◌, ◌<◌, length};
ghost use Rattle.definition.specs.Edition.{statements};
ghost use Rattle.definition.specs.Contents.{size};
ghost use Rattle.values.specs.Tables.{table};
ghost use Rattle.reads.specs.Counts.{raised, visit, slots, between, live_uses, last_reader, read_by, Numbers, Runs, LiveReads, PhiReads};

use places::places_of;
use records::contents::{INPUTS, STATEMENTS, size_of};
use records::owners::is_dead;
use slices::{get, put};

// One more; the greatest number stays, so that it never overflows.
fn raise(tab: &mut [u32], i: usize)
    ensures { tab.new ≡ raised tab.old i }
{
    let x = get(tab, i);
    if x < 4294967295 {
        put(tab, i, x + 1);
    }
}

// The step at the numbers of the nodes from a to b, whose places begin at `base`.
pub fn visit_run<F: Fn(&mut [u32], usize)>(
    tab: &mut [u32],
    numbers: &[u32],
    order: &[u32],
    base: usize,
    a: u32,
    b: u32,
    step: F,
)
    requires base_bound { base < 34359738368 }
    requires callable { F.IsAlwaysCallable step }
    ensures { (g : List ℕ → ℕ → List ℕ) → ((t : _) (i : ℕ) (u : _) → F.post step t i tt u → u.now ≡ g t.now i)
        → tab.new ≡ visit g tab.old (slots numbers.now base (between order.now a b)) }
{
    for j in a..b {
        let n = get(order, j as usize);
        step(tab, get(numbers, base + n as usize) as usize);
    }
}

// The step at the numbers of what statement i reads, where it is live.
fn visit_stmt<F: Fn(&mut [u32], usize)>(
    tab: &mut [u32],
    f: &[u8],
    numbers: &[u32],
    order: &[u32],
    starts: &[u32],
    base: usize,
    i: u32,
    step: F,
)
    requires runs { Runs f.now order.now starts.now }
    requires base_bound { (base < 34359738368) × (i < size f.now statements) }
    requires callable { F.IsAlwaysCallable step }
    ensures { (g : List ℕ → ℕ → List ℕ) → ((t : _) (n : ℕ) (u : _) → F.post step t n tt u → u.now ≡ g t.now n)
        → tab.new ≡ visit g tab.old (slots numbers.now base (live_uses f.now i)) }
{
    if is_dead(f, i) {
        return;
    }
    let k = i as usize;
    let a = get(starts, k);
    visit_run(tab, numbers, order, base, a, get(starts, k + 1), step);
}

// How often live statements read each value.
pub fn live_reads(tab: &mut [u32], f: &[u8], numbers: &[u32], order: &[u32], starts: &[u32])
    requires numbers { Numbers f.now numbers.now tab.old }
    requires runs { Runs f.now order.now starts.now }
    ensures { LiveReads f.now (length numbers.now) tab.new }
{
    let p = places_of(f);
    let base = p.exprs;
    let n = size_of(f, STATEMENTS);
    for i in 0..n {
        visit_stmt(tab, f, numbers, order, starts, base, i, raise);
    }
}

// 1 more than the last live statement that reads each value, 0 where none does.
pub fn readers(tab: &mut [u32], f: &[u8], numbers: &[u32], order: &[u32], starts: &[u32])
    requires numbers { Numbers f.now numbers.now tab.old }
    requires runs { Runs f.now order.now starts.now }
    ensures { tab.new ≡ table f.now (length numbers.now) (last_reader f.now) }
{
    let p = places_of(f);
    let base = p.exprs;
    let n = size_of(f, STATEMENTS);
    for i in 0..n {
        let x = i + 1;
        visit_stmt(
            tab,
            f,
            numbers,
            order,
            starts,
            base,
            i,
            |t: &mut [u32], n| put(t, n, x),
        );
    }
}

// 1 where the value flows into a phi, dead or live.
pub fn phi_reads(tab: &mut [u32], f: &[u8], numbers: &[u32])
    requires { Numbers f.now numbers.now tab.old }
    ensures { PhiReads f.now (length numbers.now) tab.new }
{
    let p = places_of(f);
    let base = p.inputs;
    let n = size_of(f, INPUTS);
    for k in 0..n {
        put(tab, get(numbers, base + k as usize) as usize, 1);
    }
}

// Whether a live statement or a phi reads value m.
#[tactic(auto, unfolding(crate::specs::Counts::read_by))]
pub fn is_read(live: &[u32], phi: &[u32], m: usize) -> bool
    ensures { result ≡ read_by live.now phi.now m }
{
    get(live, m) != 0 || get(phi, m) != 0
}
