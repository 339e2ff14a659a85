// What samples are read from: a list of numbers, or lent bytes, 8 a sample, as callers in C have them.
ghost use Rattle.std.specs.Prelude.{◌≡◌, ◌<◌, ◌≤◌, List, ℤ, length, pos, slice_index_or};
ghost use Rattle.std.proofs.Math.Seq.{slice};
ghost use Rattle.format.specs.Boundary.{samples_lent};
ghost use Rattle.format.specs.Samples.{to_signed};

pub trait Source: Sized {
    // the samples that a slice holds
    ghost samples: { List Self → List ℤ };

    // How many samples there are.
    fn count(held: &[Self]) -> usize
        ensures { result ≡ length (samples held.now) };

    // The bits of sample k.
    fn bits_at(held: &[Self], k: usize) -> u64
        requires { k < length (samples held.now) }
        ensures { to_signed 8 result ≡ slice_index_or (samples held.now) k (pos 0) };

    // The samples from number `from` up to `to`.
    fn part(held: &[Self], from: usize, to: usize) -> &[Self]
        requires { (from ≤ to) × (to ≤ length (samples held.now)) }
        ensures { samples result.now ≡ slice from to (samples held.now) };
}

impl Source for i64 {
    ghost samples = { λ zs. zs };

    fn count(held: &[i64]) -> usize {
        held.len()
    }

    fn bits_at(held: &[i64], k: usize) -> u64 {
        lent_numbers::bits_of(held[k])
    }

    fn part(held: &[i64], from: usize, to: usize) -> &[i64] {
        &held[from..to]
    }
}

impl Source for u8 {
    ghost samples = { samples_lent };

    fn count(held: &[u8]) -> usize {
        held.len() / 8
    }

    fn bits_at(held: &[u8], k: usize) -> u64 {
        lent_numbers::word_at(held, k)
    }

    fn part(held: &[u8], from: usize, to: usize) -> &[u8] {
        &held[8 * from..8 * to]
    }
}
