// Products that stop at the least number that is no extent, so that no factors overflow.
ghost use Rattle.std.specs.Prelude.{◌≡◌, ◌*◌};
ghost use Rattle.format.specs.Descriptors.{product, capped};

// The least number that is no extent.
const PAST_EXTENT: u64 = format::MAX_EXTENT + 1;

// A product, or `PAST_EXTENT` for all that are above it.
pub fn times(a: u64, b: u64) -> u64
    ensures { result ≡ capped (a * b) }
{
    if a == 0 || b == 0 {
        0
    } else if PAST_EXTENT <= a || PAST_EXTENT <= b {
        PAST_EXTENT
    } else {
        let p = a * b;
        p.min(PAST_EXTENT)
    }
}

// The product of the numbers, or `PAST_EXTENT` where it is above.
pub fn product(ns: &[u64]) -> u64
    ensures { result ≡ capped (product ns.now) }
{
    let mut p = 1;
    for &n in ns {
        p = times(n, p);
    }
    p
}
