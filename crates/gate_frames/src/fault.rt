// What is wrong with a case, and why the walk through the input ends early.
ghost use Rattle.std.specs.Prelude.{◌≡◌, ◌↔◌, true, IsOk};
ghost use Rattle.gate_frames.specs.declared.fault.Fault.TheVariants.{Stopped, Part};

use std::io::{self, ErrorKind};

// Why the walk ends early.
#[derive(Drop)]
pub enum Stop {
    // The input does not fit the frame.
    Malformed,
    // A read or a write of the standard streams failed.
    Failed(io::Error),
}

impl From<io::Error> for Stop {
    // An input that ends within a part does not fit the frame.
    fn from(error: io::Error) -> Stop {
        match error.kind() {
            ErrorKind::UnexpectedEof => Stop::Malformed,
            _ => Stop::Failed(error),
        }
    }
}

// What is wrong with a case: a part of it, by its number, or that the walk ends there.
#[derive(Drop)]
pub enum Fault {
    Part(u32),
    Stopped(Stop),
}

impl From<Stop> for Fault {
    ghost from_gives = { λ stop fault. fault ≡ Stopped stop };

    fn from(stop: Stop) -> Fault {
        Fault::Stopped(stop)
    }
}

impl From<io::Error> for Fault {
    fn from(error: io::Error) -> Fault {
        Fault::Stopped(error.into())
    }
}

// The fault of this part, unless it is right.
pub fn check<P: Into<Fault> + Drop>(right: bool, part: P) -> Result<(), Fault>
    ensures { IsOk result ↔ (right ≡ true) }
{
    if right { Ok(()) } else { Err(part.into()) }
}
