// Lists of samples that keep the stamps of what is stored in them: whatever a sample is, its low 32 bits are read as they were stored.
ghost use Rattle.std.specs.Prelude.{◌≡◌, List, ℤ, length, map, refl};
ghost use Rattle.roof_steps.specs.Steps.{stamp_of};
ghost use Rattle.roof_sweep.specs.LentStamps.{lent_stamps};

use lent_lists::Lent;

pub trait Stamped: Lent {
    ghost kept: { (zs : List ℤ) (d : List Self) → length zs ≡ length (Self.samples d) → map stamp_of (Self.samples (Self.lent zs d)) ≡ map stamp_of zs };
}

impl Stamped for i64 {
    ghost kept = { λ zs d h. refl };
}

impl Stamped for u8 {
    ghost kept = { lent_stamps };
}
