// Lists of samples that a caller lends, of numbers or of bytes, 8 for each sample: the samples that they hold, and what they hold once others are stored.
#![tactic(auto)]

ghost use Rattle.std.specs.Prelude.{◌≡◌, ◌+◌, ◌<◌, List, ℕ, ℤ, pos, length, slice_index_or};
ghost use Rattle.format.specs.Boundary.{samples_lent, lent_samples};
ghost use Rattle.format.specs.Laws.{AllBytes};
ghost use Rattle.format.specs.Samples.{from_signed};
ghost use Rattle.lent_lists.specs.Views.{Views, IsAny, list_views, byte_views};

use lent_numbers::cell::Cell;

pub trait Lent: Cell {
    // what the type says of the cells
    ghost Sound: { List Self → Type 0 };

    // the samples that cells hold
    ghost samples: { List Self → List ℤ };

    // cells once they hold these samples; a rest too short for one stays
    ghost lent: { List ℤ → List Self → List Self };

    // How many samples they hold.
    fn entries(cells: &[Self]) -> usize
        ensures count { result ≡ length (samples cells.now) }
        ensures sound { Sound cells.now };

    // The bits of sample k.
    fn bits_at(cells: &[Self], k: usize) -> u64
        requires { k < length (samples cells.now) }
        ensures { result ≡ from_signed 8 (slice_index_or (samples cells.now) k (pos 0)) };

    ghost views: { Views Self.Cell.store Self.Cell.place Self.Cell.room Sound samples lent };
}

impl Lent for i64 {
    ghost Sound = { IsAny };

    ghost samples = { λ zs. zs };

    ghost lent = { λ zs d. zs };

    ghost views = { list_views };

    fn entries(cells: &[i64]) -> usize {
        cells.len()
    }

    fn bits_at(cells: &[i64], k: usize) -> u64 {
        lent_numbers::bits_of(cells[k])
    }
}

impl Lent for u8 {
    ghost Sound = { AllBytes };

    ghost samples = { samples_lent };

    ghost lent = { lent_samples };

    ghost views = { byte_views };

    fn entries(cells: &[u8]) -> usize {
        cells.len() / 8
    }

    fn bits_at(cells: &[u8], k: usize) -> u64 {
        lent_numbers::word_at(cells, k)
    }
}
