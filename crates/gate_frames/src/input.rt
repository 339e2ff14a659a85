// The input, read piece by piece.
use crate::fault::Stop;
use std::io::{ErrorKind, Read};

// The next number of the input.
pub fn number(rt: &impl Input) -> Result<u32, Stop> {
    let mut bytes = [0u8; 4];
    rt.reader().read_exact(&mut bytes)?;
    Ok(u32::from_le_bytes(bytes))
}

// The next run of the input, read to the front of the buffer.
pub fn run<'a>(rt: &impl Input, buffer: &'a mut [u8]) -> Result<&'a [u8], Stop> {
    let length = number(rt)? as usize;
    let front = buffer.get_mut(..length).ok_or(Stop::Malformed)?;
    rt.reader().read_exact(front)?;
    Ok(front)
}

// An input that fits the frame has no more bytes.
pub fn end(rt: &impl Input) -> Result<(), Stop> {
    match rt.reader().read_exact(&mut [0u8]) {
        Ok(()) => Err(Stop::Malformed),
        Err(e) if e.kind() == ErrorKind::UnexpectedEof => Ok(()),
        Err(e) => Err(e.into()),
    }
}
