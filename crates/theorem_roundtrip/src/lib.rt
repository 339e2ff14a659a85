// What the writer writes is read back, of the definitions that the writer is proved against.
#![tactic(auto)]

ghost use Rattle.theorem_roundtrip.specs.RoundTrip.{RoundTrips};

// Whatever the writer accepts is read back as it was given.
pub fn round_trips() -> u64
    ensures { RoundTrips }
{
    0
}
