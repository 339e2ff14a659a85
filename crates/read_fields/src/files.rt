// Whether the data files fit the sizes: how many there are, and how many axes each covers.
ghost use Rattle.std.specs.Prelude.{◌≡◌, ◌+◌, ◌≤◌, ◌<◌, length};
ghost use Rattle.format.specs.Limits.{max_axes};
ghost use Rattle.read_fields.specs.Shares.{slices_fit, slabs_fit, fits, fits_by};

use format_values::products;
use read_files::cover::Cover;

// Each file covers c axes, fewer than all: there is one for every place on the others.
fn slices_fit(sizes: &[u64], last: u32, c: usize) -> bool
    requires { (c < length sizes.now) × (length sizes.now ≤ max_axes) }
    ensures { result ≡ slices_fit sizes.now (last + 1) c }
{
    products::product(&sizes[c..]) == last as u64 + 1
}

// All axes: as many slabs as divide the slowest one.
fn slabs_fit(sizes: &[u64], last: u32) -> bool
    requires { 0 < length sizes.now }
    ensures { result ≡ slabs_fit (length sizes.now) sizes.now (last + 1) }
{
    sizes[sizes.len() - 1] % (last as u64 + 1) == 0
}

// Each of the files covers c axes.
#[tactic(auto, unfolding(crate::specs::Shares::fits))]
fn cover_fits(sizes: &[u64], last: u32, c: usize) -> bool
    requires { length sizes.now ≤ max_axes }
    ensures { result ≡ fits (length sizes.now) sizes.now (last + 1) c }
{
    let n = sizes.len();
    if c == 0 || n < c {
        return false;
    }
    if c < n {
        slices_fit(sizes, last, c)
    } else {
        slabs_fit(sizes, last)
    }
}

// Whether the files fit: `last` is the number of the last one, counted from 0, and `cover` how many axes each covers, where there may be several.
#[tactic(auto, unfolding(crate::specs::Shares::fits_by))]
pub(crate) fn fit(sizes: &[u64], cover: Option<Cover>, last: u32) -> bool
    requires { length sizes.now ≤ max_axes }
    ensures { result ≡ fits_by (length sizes.now) sizes.now (last + 1) cover }
{
    match cover {
        None => true,
        Some(Cover::Open) => cover_fits(sizes, last, sizes.len().saturating_sub(1)),
        Some(Cover::Axes(c)) => cover_fits(sizes, last, c as usize),
    }
}
