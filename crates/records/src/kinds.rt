// The kinds of statements and the tags of expressions, out of the numbers that the file has for them.
ghost use Rattle.std.specs.Prelude.{◌≡◌};
ghost use Rattle.definition.specs.Contents.{expr_word};
ghost use Rattle.definition.specs.Owners.{stmt_kind};
ghost use Rattle.records.specs.Kinds.{kind_of, tag_of};

use crate::contents::expr_word;
use crate::owners::{
    ASSIGN, BIN, BRANCH, CALL, CONST, FLAGS, LOAD, OPAQUE, OTHER, RETURN, STORE, UN, USE, stmt_kind,
};

#[derive(Clone, Copy, PartialEq, Eq)]
pub enum Kind {
    Assign,
    Store,
    Call,
    Branch,
    Flags,
    Return,
    Other,
}

#[derive(Clone, Copy, PartialEq, Eq)]
pub enum Tag {
    Const,
    Use,
    Bin,
    Un,
    Load,
    Opaque,
}

// The kind of statement i; none where its number stands for no kind.
#[tactic(auto, unfolding(crate::specs::Kinds::kind_of))]
pub fn kind_at(f: &[u8], i: u32) -> Option<Kind>
    ensures { result ≡ kind_of (stmt_kind f.now i) }
{
    match stmt_kind(f, i) {
        ASSIGN => Some(Kind::Assign),
        STORE => Some(Kind::Store),
        CALL => Some(Kind::Call),
        BRANCH => Some(Kind::Branch),
        FLAGS => Some(Kind::Flags),
        RETURN => Some(Kind::Return),
        OTHER => Some(Kind::Other),
        _ => None,
    }
}

// The tag of expression i; none where its number stands for no tag.
#[tactic(auto, unfolding(crate::specs::Kinds::tag_of))]
pub fn tag_at(f: &[u8], i: u32) -> Option<Tag>
    ensures { result ≡ tag_of (expr_word f.now i 0) }
{
    match expr_word(f, i, 0) {
        CONST => Some(Tag::Const),
        USE => Some(Tag::Use),
        BIN => Some(Tag::Bin),
        UN => Some(Tag::Un),
        LOAD => Some(Tag::Load),
        OPAQUE => Some(Tag::Opaque),
        _ => None,
    }
}
