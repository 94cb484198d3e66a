// Records: the wire format of what the monitor is fed and what it sends (document 01, "Records").
#![tactic(auto)]

ghost use Rattle.std.specs.Prelude.{◌≡◌};
ghost use Rattle.records.specs.Codec.{decoded, decoded_first, written, encoded};
ghost use Rattle.records.specs.Results.{decoded_as, first_as, encoded_as};

mod checks;
mod errors;
mod layout;
pub mod map_bytes;
mod reading;
mod writing;

use checks::carriable;
pub use checks::{LONGEST_INPUT, LONGEST_REQUEST, SHORTEST_REQUEST};
pub use errors::{DecodeError, EncodeError};
pub use layout::count_keys;
use reading::Reader;
use writing::Writer;

// The number of what is accepted.
pub const ACCEPTED: u32 = 0;

// Whether a record is an input of the monitor or a request that it sends.
#[derive(Clone, Copy, Debug, PartialEq, Eq)]
pub enum Direction {
    Input,
    Request,
}

// The fields of a record; one that the map does not carry is 0. Document 01 calls a connection a lane.
#[derive(Clone, Copy, Debug, PartialEq, Eq)]
pub struct Record {
    pub map: u8,
    pub url: u8,
    pub connection: u8,
    // bit k is set where key k has a value in `cookies`
    pub keys: u8,
    pub cookies: [u32; 8],
    pub script: u8,
    pub value: u32,
    pub target: u8,
}

// Reads a record. Refused are, with the first that applies: bytes that are empty or whose map the direction does not have; a record that carries
// cookies and whose key map byte is there and zero; one whose length is not what its maps call for.
pub fn decode(direction: Direction, bytes: &[u8]) -> Result<Record, DecodeError>
    ensures { decoded_as result ≡ decoded direction bytes.now }
{
    let first = decode_first(direction, bytes)?;
    if first.length != bytes.len() {
        return Err(DecodeError::CutOrTooLong);
    }
    Ok(first.fields)
}

// The first of some records one after another, and how many bytes it has.
#[derive(Clone, Copy, Debug, PartialEq, Eq)]
pub struct First {
    pub fields: Record,
    pub length: usize,
}

// Reads the first of some records one after another: as many bytes as its maps call for are the record.
pub fn decode_first(direction: Direction, bytes: &[u8]) -> Result<First, DecodeError>
    ensures { first_as result ≡ decoded_first direction bytes.now }
{
    let mut reader = Reader { rest: bytes };
    let fields = reader.record(direction)?;
    let length = bytes.len() - reader.rest.len();
    Ok(First { fields, length })
}

// Writes a record at the front of a buffer, and answers its length. Refused are, with the first that applies: a buffer that is shorter than the
// longest record of the direction; fields that no map carries. A refusal changes no byte.
pub fn encode(direction: Direction, fields: Record, out: &mut [u8]) -> Result<usize, EncodeError>
    ensures { written (encoded_as result) out.new ≡ encoded direction fields out.old }
{
    if out.len() < direction.longest() {
        return Err(EncodeError::NoRoom);
    }
    if !carriable(direction, fields) {
        return Err(EncodeError::NotCarriable);
    }
    let mut writer = Writer::new(out);
    writer.record(fields);
    Ok(writer.at)
}
