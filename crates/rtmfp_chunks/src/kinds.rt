//! The types of the chunks of startup and of sessions (RFC 7016 section 2.3).

pub const IHELLO: u8 = 0x30;

pub const FIHELLO: u8 = 0x0f;

pub const RHELLO: u8 = 0x70;

pub const REDIRECT: u8 = 0x71;

pub const COOKIE_CHANGE: u8 = 0x79;

pub const IIKEYING: u8 = 0x38;

pub const RIKEYING: u8 = 0x78;

pub const PING: u8 = 0x01;

pub const PING_REPLY: u8 = 0x41;

pub const CLOSE: u8 = 0x0c;

pub const CLOSE_ACK: u8 = 0x4c;

pub const FRAGMENT: u8 = 0x7f;
