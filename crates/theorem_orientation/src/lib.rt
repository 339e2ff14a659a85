// That the definitions of decimals and vectors are to be believed, and that what is written of an orientation is read back.
#![tactic(auto)]

ghost use Rattle.theorem_orientation.specs.Meaning.{DecimalsMean};
ghost use Rattle.theorem_orientation.specs.ReadBack.{OrientationReadsBack};

// What a component's text says is its value.
pub fn decimals_mean() -> u64
    ensures { DecimalsMean }
{
    0
}

// What is written of an orientation is read back as it was given.
pub fn orientation_reads_back() -> u64
    ensures { OrientationReadsBack }
{
    0
}
