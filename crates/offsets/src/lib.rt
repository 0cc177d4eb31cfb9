// Stack offsets: which values are the stack pointer at entry plus or minus a constant. Rounds until one teaches nothing, for RSP's own definitions and
// then for the others'.
#![tactic(auto)]

ghost use Rattle.std.specs.Prelude.{◌≡◌, List, length, replicate};
ghost use Rattle.definition.specs.Edition.{Edition, blocks};
ghost use Rattle.definition.specs.Contents.{size, text};
ghost use Rattle.definition.specs.Read.{read};
ghost use Rattle.definition.specs.Offsets.{Known, look, closure, offsets};
ghost use Rattle.places.specs.Keys.{keyed};
ghost use Rattle.values.specs.Tables.{first_of, table};
ghost use Rattle.rounds.specs.Defs.{mine, defs_below};

use rounds::round_of;
use slices::put;
use sums::numbered::Numbered;

// The key of RSP at entry, and its offset, which is 0.
const ENTRY: u64 = 17179869185;

const HALF: u64 = 9223372036854775808;

fn close(tab: &mut [u64], of: &Numbered<'_>, own: bool)
    requires tab_len { length tab.old ≡ length of.now.numbers.now }
    ensures { (E : Edition) (k : List Known) → text E ≡ of.now.t → tab.old ≡ table of.now.f.now (length of.now.numbers.now) (look k)
        → tab.new ≡ table of.now.f.now (length of.now.numbers.now) (look (closure (mine own (defs_below E of.now.f.now (size of.now.f.now blocks))) k)) }
{
    // Rounds go on until one teaches nothing: how many there are, the file's definitions decide.
    let mut changed = true;
    while changed {
        changed = round_of(tab, of, own);
    }
}

// The first place of k, or the length where there is none.
fn first_of(keys: &[u64], k: u64) -> usize
    ensures { result ≡ first_of keys.now k }
{
    keys.iter().position(|x| *x == k).unwrap_or(keys.len())
}

// The table of stack offsets.
pub fn offsets(tab: &mut [u64], of: &Numbered<'_>, keys: &[u64])
    requires keys_value { keys.now ≡ keyed of.now.f.now (length of.now.numbers.now) }
    requires tab_value { tab.old ≡ replicate (length of.now.numbers.now) 0 }
    ensures { (E : Edition) → text E ≡ of.now.t
        → tab.new ≡ table of.now.f.now (length of.now.numbers.now) (look (offsets (read E of.now.f.now))) }
{
    put(tab, first_of(keys, ENTRY), HALF);
    close(tab, of, true);
    close(tab, of, false);
}
