// The map bytes by name, for those who make requests and tell inputs apart. An input that is none of these is a redirect.
// Constants and no enum: they are bytes of the wire format, and what they stand for has its enums above, which match on these.
pub const LOAD: u8 = 0x03;

pub const DOCUMENT_RESPONSE: u8 = 0x0b;

pub const SCRIPT_RESPONSE: u8 = 0x13;

pub const PICTURE_RESPONSE: u8 = 0x43;

pub const DOCUMENT_REQUEST: u8 = 0x03;

pub const SCRIPT_REQUEST: u8 = 0x0b;

pub const PICTURE_REQUEST: u8 = 0x43;

// What a map has more where cookies follow.
pub const WITH_COOKIES: u8 = 0x04;
