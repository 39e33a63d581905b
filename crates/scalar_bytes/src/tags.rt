// The tags of a scalar: its first byte. 7, a text, is in no sheet. Bytes, and not an enum: by `TryFrom` each
// tag would stand once more in an arm, and a match on what is read would still have one for the bytes that are no tag.
pub const NULL: u8 = 0;

pub const BOOLEAN: u8 = 1;

pub const INT32: u8 = 2;

pub const INT64: u8 = 3;

pub const FLOAT64: u8 = 4;

pub const DECIMAL128: u8 = 5;

pub const DATE32: u8 = 6;

pub const MONTH_DAY_NANO: u8 = 8;

pub const DAY_TIME: u8 = 9;

// Of a bound that is not there.
pub const ABSENT: u8 = 255;
