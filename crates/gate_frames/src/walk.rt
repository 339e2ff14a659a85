// The walk through the groups and cases of the input.
use crate::fault::{Fault, Stop};
use crate::input;
use std::io;

// Runs the cases of the input by `judge`, each lent in the buffer, and prints how many of each group are right.
pub fn run<R: Input + Print, F: Fn(&[u8]) -> Result<(), Fault>>(
    rt: &R,
    buffer: &mut [u8],
    judge: F,
) -> io::Result<()>
    requires { F.IsAlwaysCallable judge }
{
    match walk(rt, buffer, judge) {
        Ok(()) => Ok(()),
        Err(Stop::Malformed) => println!(rt; "malformed"),
        Err(Stop::Failed(error)) => Err(error),
    }
}

fn walk<R: Input + Print, F: Fn(&[u8]) -> Result<(), Fault>>(
    rt: &R,
    buffer: &mut [u8],
    judge: F,
) -> Result<(), Stop>
    requires { F.IsAlwaysCallable judge }
{
    for _ in 0..input::number(rt)? {
        group(rt, buffer, &judge)?;
    }
    input::end(rt)
}

// Runs the cases of the next group.
fn group<R: Input + Print, F: Fn(&[u8]) -> Result<(), Fault>>(
    rt: &R,
    buffer: &mut [u8],
    judge: F,
) -> Result<(), Stop>
    requires { F.IsAlwaysCallable judge }
{
    let mut name = [0u8; 256];
    let name = input::run(rt, &mut name)?;
    let count = input::number(rt)?;
    if count == 0 {
        return Err(Stop::Malformed);
    }
    let mut right = 0u64;
    for n in 1..=count {
        match judge(input::run(rt, buffer)?) {
            Ok(()) => right += 1,
            Err(Fault::Part(part)) => println!(rt; "case {n} is wrong in part {part}")?,
            Err(Fault::Stopped(stop)) => return Err(stop),
        }
    }
    rt.write_all(name)?;
    println!(rt; ": {right} of {count}")?;
    Ok(())
}
