// The number of a sample.
ghost use Rattle.std.specs.Prelude.{◌≡◌, ◌≤◌, length, drop};
ghost use Rattle.format.specs.Answers.{number_answered};
ghost use Rattle.format.specs.Limits.{max_extent};
ghost use Rattle.format.specs.Descriptors.{product};
ghost use Rattle.format.specs.Axes.{inside, sample_number};
ghost use Rattle.format.specs.Calls.{sample_number_call};
ghost use Rattle.data_place.specs.Places.{Inside, number_in};

use format::NumberAnswer;
use format::reason::{Reason, Refused};

// Whether there are as many coordinates as axes, each below its size.
fn is_inside(sizes: &[u64], coords: &[u64]) -> bool
    ensures { result ≡ inside sizes.now coords.now }
{
    if sizes.len() != coords.len() {
        return false;
    }
    for (i, &size) in sizes.iter().enumerate() {
        if size <= coords[i] {
            return false;
        }
    }
    true
}

// The number by the axes from `axis` on, axis 0 fastest: c0 + s0 * (c1 + s1 * (..)).
fn number(sizes: &[u64], coords: &[u64], axis: usize) -> u64
    requires { (axis ≤ length sizes.now) × Inside (drop axis sizes.now) (drop axis coords.now) }
    ensures { result ≡ sample_number (drop axis sizes.now) (drop axis coords.now) }
{
    if axis == sizes.len() {
        0
    } else {
        coords[axis] + sizes[axis] * number(sizes, coords, axis + 1)
    }
}

// The number of the sample at the coordinates.
pub fn sample_number(file: &[u8], coords: &[u64]) -> NumberAnswer
    ensures { result ≡ sample_number_call file.now coords.now }
{
    find_sample(file, coords).into()
}

// The same as a result.
fn find_sample(file: &[u8], coords: &[u64]) -> Result<u64, Refused>
    ensures { number_answered result ≡ sample_number_call file.now coords.now }
{
    let reading = read_header::read::reading(file)?;
    let n = reading.dimension as usize;
    number_in(&reading.sizes[..n], coords)
}

// The number by the sizes, or 23 where the coordinates are not one for each axis, each below its size.
fn number_in(sizes: &[u64], coords: &[u64]) -> Result<u64, Refused>
    requires { product sizes.now ≤ max_extent }
    ensures { number_answered result ≡ number_in sizes.now coords.now }
{
    if is_inside(sizes, coords) {
        Ok(number(sizes, coords, 0))
    } else {
        Err(Reason::BadCoordinates.into())
    }
}
