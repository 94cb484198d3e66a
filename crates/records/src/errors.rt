// What decoding and encoding refuse, in the order in which it is asked, and the number of each.
ghost use Rattle.std.specs.Prelude.{◌≡◌};
ghost use Rattle.records.specs.Results.{decode_number, encode_number};

// Why bytes are no record.
#[derive(Clone, Copy, Debug, PartialEq, Eq)]
pub enum DecodeError {
    // They are empty, or the direction does not have their map.
    KindUnknown,
    // Cookies are carried, and the key map byte is there and zero.
    KeyMapEmpty,
    // There are not as many as the maps call for.
    CutOrTooLong,
}

impl DecodeError {
    pub fn number(self) -> u32
        ensures { result ≡ decode_number self }
    {
        match self {
            DecodeError::KindUnknown => 10,
            DecodeError::KeyMapEmpty => 12,
            DecodeError::CutOrTooLong => 11,
        }
    }
}

// Why a record is not written.
#[derive(Clone, Copy, Debug, PartialEq, Eq)]
pub enum EncodeError {
    // The buffer is shorter than the longest record of the direction.
    NoRoom,
    // No map of the direction carries the fields.
    NotCarriable,
}

impl EncodeError {
    pub fn number(self) -> u32
        ensures { result ≡ encode_number self }
    {
        match self {
            EncodeError::NoRoom => 1,
            EncodeError::NotCarriable => 5,
        }
    }
}
