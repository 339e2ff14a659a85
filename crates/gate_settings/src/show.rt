// What a fresh reading of a file shows: the version, the number of lines, and each key with its value.
use crate::case::VALUE;
use gate_frames::frame::Frame;
use std::io;

// Prints bytes in one line, LF and backslash as a header line holds them.
fn print_escaped(rt: &impl Print, s: &[u8]) -> io::Result<()> {
    for &b in s {
        match b {
            b'\n' => rt.write_all(b"\\n")?,
            b'\\' => rt.write_all(b"\\\\")?,
            _ => rt.write_all(&[b])?,
        }
    }
    Ok(())
}

// Prints a key with its value, which goes to `out`.
fn print_key(rt: &impl Print, file: &[u8], key: &[u8], out: &mut [u8; VALUE]) -> io::Result<()> {
    out.fill(0);
    let answer = read_lookup::keys::copy_value(file, key, out);
    rt.write_all(b"  ")?;
    print_escaped(rt, key)?;
    rt.write_all(b" = ")?;
    print_escaped(rt, Frame::new(out).take(answer.length as usize))?;
    rt.write_all(b"\n")
}

// Prints what a fresh reading of the file shows, with the keys of a run, under a name.
pub fn show(
    rt: &impl Print,
    name: &[u8],
    file: &[u8],
    keys: &[u8],
    out: &mut [u8; VALUE],
) -> io::Result<()> {
    let reading = read_header::read::read_header(file).reading;
    rt.write_all(name)?;
    println!(rt; ": version {}, lines {}", reading.version, reading.lines)?;
    let mut frame = Frame::new(keys);
    for _ in 0..frame.number() {
        let key = frame.run();
        frame.run();
        print_key(rt, file, key, out)?;
    }
    Ok(())
}
