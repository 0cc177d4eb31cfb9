// Lent buffers emptied: zeros, whatever stood there.
ghost use Rattle.std.specs.Prelude.{◌≡◌, length, replicate};

use zeros::clear;

// Lines, tokens and text.
pub fn clear_sheet(lines: &mut [u64], tokens: &mut [u64], text: &mut [u8])
    ensures { (lines.new ≡ replicate (length lines.old) 0) × (tokens.new ≡ replicate (length tokens.old) 0)
        × (text.new ≡ replicate (length text.old) 0) }
{
    clear(lines);
    clear(tokens);
    clear(text);
}
