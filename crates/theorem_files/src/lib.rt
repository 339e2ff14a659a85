// That the definitions for data in several files are to be believed: shares, numbers and names.
#![tactic(auto)]

ghost use Rattle.theorem_files.specs.Files.{FilesHold};

// Shares are all samples, each in one place; a pattern's numbers run from its first to its last; its names are all different.
pub fn files_hold() -> u64
    ensures { FilesHold }
{
    0
}
