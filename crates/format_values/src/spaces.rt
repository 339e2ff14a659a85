// The spaces that a header may name, by number (`spaces` of the definitions).
ghost use Rattle.std.specs.Prelude.{◌≡◌};
ghost use Rattle.format.specs.Spaces.{space_size};

use crate::fields;

// How many there are.
pub const COUNT: u32 = 12;

// Their dimensions: a digit of 4 bits for each space, from the last digit on.
const SIZES: u64 = 0x4433_4344_4333;

// The dimension of a space, 0 for a number past the list.
pub fn size(space: u32) -> u32
    ensures { result ≡ space_size space }
{
    if space < COUNT {
        fields::digit(SIZES, space as usize)
    } else {
        0
    }
}
