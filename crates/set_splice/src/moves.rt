// Moves inside a buffer, at the speed of memmove.
ghost use Rattle.std.specs.Prelude.{◌≡◌, ◌+◌, ◌-◌, ◌≤◌, ◌<◌, length, take, drop};
ghost use Rattle.std.proofs.lemmas.List.Edits.{sets};

// Blocks that are moved at once: large ones while there are so many bytes, then small ones, then what is left. Large moves in one piece are slower.
const LARGE: usize = 16384;

const SMALL: usize = 4096;

// Moves the N bytes at `from` to `to`, through an array, so that the two may overlap. The compiler makes one move in memory of it.
fn block<const N: usize>(d: &mut [u8], to: usize, from: usize)
    requires to { to + N ≤ length d.old }
    requires from { from + N ≤ length d.old }
    ensures { d.new ≡ sets d.old to (take N (drop from d.old)) }
{
    let bytes: [u8; N] = d[from..from + N].try_into().unwrap();
    d[to..to + N].copy_from_slice(&bytes);
}

// Moves bytes down, of n from `from` to `to`, the first ones first: by blocks of N while there are so many left. Returns how many it moved.
fn blocks_down<const N: usize>(d: &mut [u8], to: usize, from: usize, n: usize) -> usize
    requires down { to ≤ from }
    requires within { from + n ≤ length d.old }
    requires some { 0 < N }
    ensures part { result ≤ n }
    ensures moved { d.new ≡ sets d.old to (take result (drop from d.old)) }
{
    let mut j = 0;
    while N <= n - j { // the step is a block
        block::<N>(d, to + j, from + j);
        j += N;
    }
    j
}

// Moves n bytes from `from` down to `to`.
fn slide_down(d: &mut [u8], to: usize, from: usize, n: usize)
    requires down { to ≤ from }
    requires within { from + n ≤ length d.old }
    ensures { d.new ≡ sets d.old to (take n (drop from d.old)) }
{
    let large = blocks_down::<LARGE>(d, to, from, n);
    let small = blocks_down::<SMALL>(d, to + large, from + large, n - large);
    let moved = large + small;
    d.copy_within(from + moved..from + n, to + moved);
}

// Up stands beside down: the last bytes go first, so loop and clause differ.
// Moves bytes up, of n from `from` to `to`, the last ones first: by blocks of N while there are so many left. Returns how many are left.
fn blocks_up<const N: usize>(d: &mut [u8], to: usize, from: usize, n: usize) -> usize
    requires up { from ≤ to }
    requires within { to + n ≤ length d.old }
    requires some { 0 < N }
    ensures part { result ≤ n }
    ensures moved { d.new ≡ sets d.old (to + result) (take (n - result) (drop (from + result) d.old)) }
{
    let mut k = n;
    while N <= k { // the step is a block
        k -= N;
        block::<N>(d, to + k, from + k);
    }
    k
}

// Moves n bytes from `from` up to `to`.
fn slide_up(d: &mut [u8], to: usize, from: usize, n: usize)
    requires up { from ≤ to }
    requires within { to + n ≤ length d.old }
    ensures { d.new ≡ sets d.old to (take n (drop from d.old)) }
{
    let large = blocks_up::<LARGE>(d, to, from, n);
    let left = blocks_up::<SMALL>(d, to, from, large);
    d.copy_within(from..from + left, to);
}

// Moves n bytes from `from` to `to`, whichever way that is.
pub(crate) fn slide(d: &mut [u8], to: usize, from: usize, n: usize)
    requires to { to + n ≤ length d.old }
    requires from { from + n ≤ length d.old }
    ensures { d.new ≡ sets d.old to (take n (drop from d.old)) }
{
    // bytes that stay where they are, as behind a value that keeps its length, need no move
    if to < from {
        slide_down(d, to, from, n)
    } else if from < to {
        slide_up(d, to, from, n)
    }
}
