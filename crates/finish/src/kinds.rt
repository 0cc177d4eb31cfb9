// The tokens of a row, by its kind.
ghost use Rattle.std.specs.Prelude.{◌≡◌};
ghost use Rattle.room.specs.Room.{room_of, emit_all, seen};
ghost use Rattle.sheet.specs.Buffers.{tokens_in};
ghost use Rattle.finish.specs.Finishing.{kind_toks, Headed};

use crate::rows::CLOSE;
use clips::copies::put_line;
use negate::heads::{put_close, put_do, put_open, put_while};
use room::out::Out;

const IF_OPEN: u64 = 5;

const DO_OPEN: u64 = 7;

const WHILE_CLOSE: u64 = 8;

// Those of a row whose lowered line is n tokens from place a on.
#[tactic(auto, unfolding(crate::specs::Finishing::kind_toks, crate::specs::Finishing::later_toks))]
pub fn put_row(
    tokens: &mut [u64],
    text: &mut [u8],
    out: Out,
    lowered: &[u64],
    source: &[u8],
    kind: u64,
    a: usize,
    n: usize,
) -> Out
    requires { Headed lowered.now kind a n }
    ensures { seen (room_of tokens.new text.new result)
        ≡ seen (emit_all (room_of tokens.old text.old out) (kind_toks kind (tokens_in lowered.now source.now a n))) }
{
    match kind {
        CLOSE => put_close(tokens, text, out),
        IF_OPEN => put_open(tokens, text, out, lowered, source, a, n),
        DO_OPEN => put_do(tokens, text, out),
        WHILE_CLOSE => put_while(tokens, text, out, lowered, source, a, n),
        _ => put_line(tokens, text, out, lowered, source, a, n),
    }
}
