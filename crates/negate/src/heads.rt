// The lines that a region begins and ends with, without their ends.
ghost use Rattle.std.specs.Prelude.{◌≡◌};
ghost use Rattle.definition.specs.Negate.{open_tokens, close_tokens, do_tokens, while_tokens};
ghost use Rattle.room.specs.Room.{room_of, emit_all, seen};
ghost use Rattle.sheet.specs.Buffers.{tokens_in};
ghost use Rattle.clips.specs.Clip.{Rises};

use crate::negation::put_negated;
use clips::clip::condition;
use clips::copies::put_condition;
use pieces::put::put;
use room::out::Out;

const KEYWORD: u32 = 3;

const PUNCT: u32 = 6;

// `}`
pub fn put_close(tokens: &mut [u64], text: &mut [u8], out: Out) -> Out
    ensures { seen (room_of tokens.new text.new result)
        ≡ seen (emit_all (room_of tokens.old text.old out) close_tokens) }
{
    put(tokens, text, out, PUNCT, b"}")
}

// `do {`
pub fn put_do(tokens: &mut [u64], text: &mut [u8], out: Out) -> Out
    ensures { seen (room_of tokens.new text.new result)
        ≡ seen (emit_all (room_of tokens.old text.old out) do_tokens) }
{
    let out = put(tokens, text, out, KEYWORD, b"do");
    put(tokens, text, out, PUNCT, b" {")
}

// `if (!C) {` of the jump that is n tokens from place a on.
pub fn put_open(
    tokens: &mut [u64],
    text: &mut [u8],
    out: Out,
    lowered: &[u64],
    source: &[u8],
    a: usize,
    n: usize,
) -> Out
    requires { Rises lowered.now a n }
    ensures { seen (room_of tokens.new text.new result)
        ≡ seen (emit_all (room_of tokens.old text.old out) (open_tokens (tokens_in lowered.now source.now a n))) }
{
    let out = put(tokens, text, out, KEYWORD, b"if");
    let out = put(tokens, text, out, PUNCT, b" (");
    let c = condition(lowered, source, a, n);
    let out = put_negated(tokens, text, out, lowered, source, c);
    put(tokens, text, out, PUNCT, b") {")
}

// `} while (C);` of the jump that is n tokens from place a on.
pub fn put_while(
    tokens: &mut [u64],
    text: &mut [u8],
    out: Out,
    lowered: &[u64],
    source: &[u8],
    a: usize,
    n: usize,
) -> Out
    ensures { seen (room_of tokens.new text.new result)
        ≡ seen (emit_all (room_of tokens.old text.old out) (while_tokens (tokens_in lowered.now source.now a n))) }
{
    let out = put(tokens, text, out, PUNCT, b"} ");
    let out = put(tokens, text, out, KEYWORD, b"while");
    let out = put(tokens, text, out, PUNCT, b" (");
    let out = put_condition(tokens, text, out, lowered, source, a, n);
    put(tokens, text, out, PUNCT, b");")
}
