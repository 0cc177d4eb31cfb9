// Whether the buffers have their lengths: what lowering writes to, and what the caller reads.
ghost use Rattle.std.specs.Prelude.{◌≡◌, cond, ◌&&◌, eqb};
ghost use Rattle.definition.specs.Edition.{edition1};
ghost use Rattle.definition.specs.Listing.{fits as fits_of};
ghost use Rattle.lent.specs.Lengths.{lent_of, low_fits};

// A line is five numbers.
const LOW_LINES: usize = 3840;

const LINES: usize = 7680;

const TOKENS: usize = 6144;

const BYTES: usize = 32768;

// Whether there are so many numbers of lines, and all tokens and bytes.
fn fit(most: usize, lines: usize, tokens: usize, text: usize) -> bool
    ensures { result ≡ (eqb lines most && eqb tokens 6144 && eqb text 32768) }
{
    lines == most && tokens == TOKENS && text == BYTES
}

#[tactic(auto, unfolding(definition::specs::Listing::fits, definition::specs::Listing::fits_in, definition::specs::Edition::edition1))]
pub fn fits(lines: usize, tokens: usize, text: usize) -> bool
    ensures { result ≡ fits_of edition1 (lent_of lines tokens text) }
{
    fit(LINES, lines, tokens, text)
}

#[tactic(auto, unfolding(definition::specs::Listing::fits_in, definition::specs::Edition::edition1))]
pub fn low_fits(lines: usize, tokens: usize, text: usize) -> bool
    ensures { result ≡ low_fits edition1 (lent_of lines tokens text) }
{
    fit(LOW_LINES, lines, tokens, text)
}

// 1 comes before what the file is refused for.
pub fn first_refusal(ready: bool, fit: bool, n: u32) -> u32
    ensures { result ≡ cond (ready && fit) n 1 }
{
    if ready && fit { n } else { 1 }
}
