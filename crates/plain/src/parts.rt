// What lines of several kinds have.
ghost use Rattle.std.specs.Prelude.{◌≡◌, ◌+◌, ◌<◌};
ghost use Rattle.definition.specs.Lists.{at};

use slices::get;

// The number of the value at place i behind `base`.
pub fn number_of(numbers: &[u32], base: usize, i: u32) -> usize
    requires { base < 34359738368 }
    ensures { result ≡ at numbers.now (base + i) }
{
    get(numbers, base + i as usize) as usize
}
