// Encodings and endians in 64 bits, as the writer is given them, and how many there are of each.
pub const RAW: u64 = crate::RAW as u64;

pub const TEXT: u64 = crate::TEXT as u64;

pub const HEX: u64 = crate::HEX as u64;

pub const ENCODINGS: u64 = HEX + 1;

pub const LITTLE: u64 = crate::LITTLE as u64;

pub const BIG: u64 = crate::BIG as u64;

pub const ENDIANS: u64 = BIG + 1;
