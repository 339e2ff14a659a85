// What refused calls, writing and lists of settings do to the bytes that callers in C lend, of the definitions that the entry points are proved against.
#![tactic(auto)]

ghost use Rattle.theorem_callers.specs.Callers.{CallersHold};

// A refused entry point leaves them, what is written is read back, headers with their orientation too, and after every list of settings the file is what the settings accepted make of it.
pub fn callers_hold() -> u64
    ensures { CallersHold }
{
    0
}
