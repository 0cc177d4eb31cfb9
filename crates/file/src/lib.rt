// The reader: checks 2 to 6 in order over a lent file, and its exported form.
#![tactic(auto)]

ghost use Rattle.std.specs.Prelude.{◌≡◌};
ghost use Rattle.file.specs.Verdicts.{number_of, Judged, Checked};

use meaning::meaning::refused6;
use records::edition::Edition;
use references::refused5;
use sections::limits::{refused2, refused3};
use shape::refused4;
use zeros::clear;

// Why a file is refused, by the refusal's number.
#[derive(Clone, Copy, PartialEq, Eq)]
pub enum Refusal {
    Lent = 1,
    Edition = 2,
    Limits = 3,
    Shape = 4,
    References = 5,
    Meaning = 6,
}

// The scratch that `check_file` is lent: a number for each expression that a file may have.
pub const OWNERS: usize = 2048;

// Checks 2 to 6 of an edition 1 file; the scratch ends as zeros, whatever stood there.
pub fn check_file(f: &[u8], owners: &mut [u32]) -> Result<(), Refusal>
    ensures { Judged f.now result owners.old owners.new }
{
    clear(owners);
    if owners.len() != OWNERS {
        return Err(Refusal::Lent);
    }
    let e = Edition::first();
    if refused2(e, f) {
        return Err(Refusal::Edition);
    }
    if refused3(e, f) {
        return Err(Refusal::Limits);
    }
    if refused4(e, f) {
        return Err(Refusal::Shape);
    }
    if refused5(e, f, owners) {
        return Err(Refusal::References);
    }
    if refused6(e, f, owners) {
        return Err(Refusal::Meaning);
    }
    Ok(())
}

// The number of an answer: 0, or the refusal's.
pub fn number_of(r: Result<(), Refusal>) -> u32
    ensures { result ≡ number_of r }
{
    match r {
        Ok(()) => 0,
        Err(refusal) => refusal as u32,
    }
}

// The reader for a host: the first refusal of 1 to 6, or 0.
pub fn sorkhelaw_check(f: &[u8], owners: &mut [u32]) -> u32
    ensures { Checked f.now result owners.old owners.new }
{
    number_of(check_file(f, owners))
}
