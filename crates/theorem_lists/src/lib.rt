// What every list of settings does to a file, of the definitions that the setter is proved against.
#![tactic(auto)]

ghost use Rattle.theorem_lists.specs.Lists.{SettingsHold};

// After every list of settings, refused ones included, a fresh reading is the first one but for the header's length and lines, each key that was set
// has its last accepted value, and all other lines and the data are the same.
pub fn settings_hold() -> u64
    ensures { SettingsHold }
{
    0
}
