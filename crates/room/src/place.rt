// A token's place: the test before its text is written, and its number set behind it.
ghost use Rattle.std.specs.Prelude.{◌≡◌, ◌||◌, ◌≤◌, eqb, length};
ghost use Rattle.room.specs.Room.{stopped, sound, goes_on, slot_at, is_ready};
ghost use Rattle.room.specs.Placing.{with_token, after_token, Placeable};

use crate::out::Out;
use leaf::Wrote;

// The most bytes that a text may have, so that a token's number, eight times its end and its kind, is one of 64 bits.
pub const TEXT_MOST: usize = 4294967296;

// Whether neighbours of this kind are one token: Punct and Text.
fn joins(kind: u32) -> bool
    ensures { result ≡ (eqb kind 6 || eqb kind 0) }
{
    kind == 6 || kind == 0
}

// Whether a piece of this kind goes on with the token before it.
#[tactic(auto, unfolding(crate::specs::Room::goes_on))]
fn goes_on(tokens: &[u64], out: Out, kind: u32) -> bool
    requires { out.tokens ≤ length tokens.now }
    ensures { result ≡ goes_on tokens.now out kind }
{
    let n = out.tokens;
    out.start < n && joins(kind) && tokens[n - 1] % 8 == u64::from(kind)
}

// The token's place.
#[tactic(auto, unfolding(crate::specs::Room::slot_at))]
fn slot_at(tokens: &[u64], out: Out, kind: u32) -> usize
    requires { out.tokens ≤ length tokens.now }
    ensures { result ≡ slot_at tokens.now out kind }
{
    if goes_on(tokens, out, kind) {
        out.tokens - 1
    } else {
        out.tokens
    }
}

// Whether the room is not full and in order, with so many numbers and bytes lent.
#[tactic(auto, unfolding(crate::specs::Room::sound))]
fn is_sound(lent: usize, size: usize, out: Out) -> bool
    ensures { result ≡ sound lent size out }
{
    !out.full
        && size <= TEXT_MOST
        && out.bytes <= size
        && out.start <= out.tokens
        && out.tokens <= lent
}

// Whether there is a place for a token of this kind. It is asked before its text is written, which goes into `size` bytes.
#[tactic(auto, unfolding(crate::specs::Room::is_ready))]
pub fn ready(tokens: &[u64], size: usize, out: Out, kind: u32) -> bool
    ensures { result ≡ is_ready tokens.now size out kind }
{
    is_sound(tokens.len(), size, out) && (goes_on(tokens, out, kind) || out.tokens < tokens.len())
}

// Full from here on.
pub fn stop(out: Out) -> Out
    ensures { result ≡ stopped out }
{
    Out { full: true, ..out }
}

// Sets the number of the token whose text was just written.
pub fn token(tokens: &mut [u64], out: Out, kind: u32, wrote: Wrote) -> Out
    requires { Placeable tokens.old out kind wrote }
    ensures { (result ≡ after_token tokens.old out kind wrote) × (tokens.new ≡ with_token tokens.old out kind wrote) }
{
    let Ok(n) = wrote else {
        return stop(out);
    };
    let i = slot_at(tokens, out, kind);
    let end = out.bytes + n;
    tokens[i] = 8 * (end as u64) + u64::from(kind);
    Out {
        tokens: i + 1,
        bytes: end,
        full: false,
        ..out
    }
}
