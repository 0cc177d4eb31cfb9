// The reader for C and other hosts.
#![tactic(auto)]

ghost use Rattle.file.specs.Verdicts.{Checked};

// The first refusal of 1 to 6, or 0.
#[unsafe(no_mangle)]
pub extern "C" fn sorkhelaw_check(f: &[u8], owners: &mut [u32]) -> u32
    ensures { Checked f.now result owners.old owners.new }
{
    file::sorkhelaw_check(f, owners)
}
