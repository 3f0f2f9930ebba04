//! The types of the chunks of flows (RFC 7016 section 2.3).

pub const DATA: u8 = 0x10;

pub const NEXT: u8 = 0x11;

pub const ACK_BITMAP: u8 = 0x50;

pub const ACK_RANGES: u8 = 0x51;

pub const PROBE: u8 = 0x18;

pub const EXCEPTION: u8 = 0x5e;
