// Check 6: what a well-formed file says has a meaning.
ghost use Rattle.std.specs.Prelude.{◌≡◌, true, ◌||◌, eqb, length, replicate};
ghost use Rattle.definition.specs.Edition.{statements};
ghost use Rattle.definition.specs.Lists.{all_below};
ghost use Rattle.definition.specs.Texts.{txt, begins};
ghost use Rattle.definition.specs.Contents.{size, text_at};
ghost use Rattle.definition.specs.Shape.{owned};
ghost use Rattle.definition.specs.Meaning.{bits, targeted, refused6 as is_refused6};
ghost use Rattle.records.specs.Editions.{edition_of};
ghost use Rattle.meaning.specs.Parts.{rest_sound};

use crate::distinct::{args_distinct, args_spare_rsp, names_rise, starts_distinct};
use crate::registers_named::registers_named;
use records::contents::{STATEMENTS, offset_of, size_of};
use records::edition::Edition;
use records::owners::{CALL, stmt_field, stmt_kind};
use slots::defined_once;
use words::{begins_at, word_at};

// The bits of the function.
pub fn bits_of(f: &[u8]) -> u32
    ensures { result ≡ bits f.now }
{
    word_at(f, 4)
}

#[tactic(auto, using(std::proofs::lemmas::Bool::Decides::nat_tests))]
fn bits_known(f: &[u8]) -> bool
    ensures { result ≡ (eqb (bits f.now) 32 || eqb (bits f.now) 64) }
{
    let n = bits_of(f);
    n == 32 || n == 64
}

// Whether n bytes of the text from `start` on begin with `[`: a computed target.
fn opens(e: Edition, f: &[u8], start: u32, n: u32) -> bool
    ensures { result ≡ begins (txt "[") (text_at (edition_of e) f.now start n) }
{
    n != 0 && begins_at(b"[", f, offset_of(f, e.text()) as usize + start as usize)
}

#[tactic(auto, using(std::proofs::lemmas::Bool::Decides::nat_tests), unfolding(definition::specs::Meaning::targeted))]
fn call_targeted(e: Edition, f: &[u8], i: u32) -> bool
    ensures { result ≡ targeted (edition_of e) f.now i }
{
    stmt_kind(f, i) != CALL
        || !opens(e, f, stmt_field(f, i, 0), stmt_field(f, i, 1))
        || stmt_field(f, i, 2) != 0
}

fn calls_targeted(e: Edition, f: &[u8]) -> bool
    ensures { result ≡ all_below (size f.now statements) (targeted (edition_of e) f.now) }
{
    (0..size_of(f, STATEMENTS)).all(|i| call_targeted(e, f, i))
}

// All of check 6 but what is defined once.
fn rest_sound(e: Edition, f: &[u8]) -> bool
    requires { owned f.now ≡ true }
    ensures { result ≡ rest_sound (edition_of e) f.now }
{
    bits_known(f)
        && registers_named(f)
        && args_distinct(f)
        && args_spare_rsp(f)
        && starts_distinct(f)
        && names_rise(f)
        && calls_targeted(e, f)
}

// The scratch begins and ends as zeros.
pub fn refused6(e: Edition, f: &[u8], scratch: &mut [u32]) -> bool
    requires f_value { owned f.now ≡ true }
    requires scratch_value { scratch.old ≡ replicate (length scratch.old) 0 }
    ensures { (result ≡ is_refused6 (edition_of e) f.now) × (scratch.new ≡ replicate (length scratch.old) 0) }
{
    !(rest_sound(e, f) && defined_once(scratch, f))
}
