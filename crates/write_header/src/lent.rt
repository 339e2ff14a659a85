// An orientation in lent bytes: 32 bytes of numbers, then 25 arrays of eight decimals: the origin, 16 directions, 8 columns of a frame.
ghost use Rattle.std.specs.Prelude.{◌≡◌, ◌+◌, ◌*◌, ◌≤◌, length, drop};
ghost use Rattle.format.specs.EntryPoints.{shape_lent, columns_lent};
ghost use Rattle.write_header.specs.Headers.{given_lent};

use crate::checks::Given;
use format::{Decimal, Shape};

// How many bytes it has.
pub(crate) const WIDTH: usize = 3232;

// The places of the origin, of the directions and of the frame.
const ORIGIN: usize = 32;

const DIRECTIONS: usize = 160;

const FRAME: usize = 2208;

// The bytes of eight decimals.
const STEP: usize = 128;

// The numbers.
fn shape_at(s: &[u8]) -> Shape
    requires { 32 ≤ length s.now }
    ensures { result ≡ shape_lent s.now }
{
    Shape {
        given: lent_numbers::entry_at(s, 4),
        components: lent_numbers::entry_at(s, 5),
        axes: lent_numbers::entry_at(s, 6),
        columns: lent_numbers::entry_at(s, 7),
        space: lent_numbers::word_at(s, 0),
        spacedimension: lent_numbers::word_at(s, 1),
    }
}

// N arrays of eight decimals.
fn read_columns<const N: usize>(s: &[u8], at: usize, columns: &mut [[Decimal; 8]; N])
    requires { at + 128 * N ≤ length s.now }
    ensures { columns.new ≡ columns_lent N (drop at s.now) }
{
    for i in 0..N {
        columns[i] = lent_decimals::column_at(s, at + STEP * i);
    }
}

// The whole orientation, in place: it is large, and by value the stack would hold it several times.
pub(crate) fn read_given(s: &[u8], given: &mut Given)
    requires { length s.now ≡ 3232 }
    ensures { given.new ≡ given_lent s.now }
{
    given.shape = shape_at(s);
    given.origin = lent_decimals::column_at(s, ORIGIN);
    read_columns(s, DIRECTIONS, &mut given.directions);
    read_columns(s, FRAME, &mut given.frame);
}
