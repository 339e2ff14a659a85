// The samples of a type are those from -low to high.
ghost use Rattle.std.specs.Prelude.{◌^◌, ◌≤◌, ◌<◌};

#[derive(Clone, Copy)]
pub(crate) struct Bounds {
    pub low: u64,
    pub high: u64,
    ghost low_fits: { low ≤ 2 ^ 63 },
    ghost high_fits: { high < 2 ^ 63 },
}

impl Bounds {
    ghost use Rattle.std.specs.Prelude.{◌≡◌, if◌then◌else◌};
    ghost use Rattle.format.specs.Samples.{lowest, highest};
    ghost use Rattle.lent_numbers.specs.Widths.{Width, kind_by};

    pub(crate) fn of(w: usize, signed: bool) -> Bounds
        ensures low { Width w → result.low ≡ lowest (kind_by signed) w }
        ensures high { Width w → result.high ≡ highest (kind_by signed) w }
    {
        Bounds {
            low: format_values::types::lowest(signed, w as u64),
            high: format_values::types::highest(signed, w as u64),
        }
    }

    // The bound of a number after a minus, or without one.
    pub(crate) fn after(&self, minus: bool) -> u64
        ensures { result ≡ (if minus then self.now.low else self.now.high) }
    {
        if minus { self.low } else { self.high }
    }
}
