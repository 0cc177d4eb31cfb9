// Checks 2 and 3: size and edition, and the limits.
ghost use Rattle.std.specs.Prelude.{◌≡◌};
ghost use Rattle.definition.specs.Shape.{refused2, too_many, refused3};
ghost use Rattle.records.specs.Editions.{edition_of};

use records::contents::size_of;
use records::edition::Edition;
use words::word_at;

// Check 2: too short, another edition, or the reserved word not 0.
#[tactic(auto, unfolding(definition::specs::Shape::refused2, records::specs::Editions::edition_of))]
pub fn refused2(e: Edition, f: &[u8]) -> bool
    ensures { result ≡ refused2 (edition_of e) f.now }
{
    (f.len() as u64) < e.contents() || word_at(f, 0) != e.number || word_at(f, 12) != 0
}

// Whether a section has more records than the edition allows.
fn too_many(e: Edition, f: &[u8]) -> bool
    ensures { result ≡ too_many f.now 0 (edition_of e).sections }
{
    (0..e.sections).any(|s| e.limit_at(s) < size_of(f, s))
}

// Check 3: too long, or a section of too many records.
#[tactic(auto, unfolding(definition::specs::Shape::refused3, records::specs::Editions::edition_of))]
pub fn refused3(e: Edition, f: &[u8]) -> bool
    ensures { result ≡ refused3 (edition_of e) f.now }
{
    u64::from(e.most) < f.len() as u64 || too_many(e, f)
}
