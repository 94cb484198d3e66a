// What a Set-Cookie line says of a cookie (document 01, "Take in Set-Cookie lines"): its key, its value, its flags, and who may read it.
#![tactic(auto)]

ghost use Rattle.std.specs.Prelude.{◌≡◌};
ghost use Rattle.cookie.specs.Import.{imported, told, number_of_error};

pub mod attributes;
pub mod names;
pub mod parts;

use attributes::{Flags, flags_of};
use labels::addresses::{HOSTS, host_endpoints};
use names::{NAMES_BYTES, key_named};
use parts::{cut, trim};
use text::digits::read_number;

// The number of a line that nothing refuses.
pub const ACCEPTED: u32 = 0;

// There is no such host.
pub const HOST_UNKNOWN: u32 = 6;

// The pair has no equals sign, or an empty name.
pub const NO_NAME: u32 = 14;

// The names have another length, or none of them is the name.
pub const NO_KEY: u32 = 15;

// The value is not one to ten digits that make at most 4,294,967,295.
pub const NO_NUMBER: u32 = 16;

// Why a line is refused: the first that fits.
#[derive(Clone, Copy, Debug, PartialEq, Eq)]
pub enum ImportError {
    HostUnknown,
    NoName,
    NoKey,
    NoNumber,
}

impl ImportError {
    // The number that C is told.
    pub fn number(self) -> u32
        ensures { result ≡ number_of_error self }
    {
        match self {
            ImportError::HostUnknown => HOST_UNKNOWN,
            ImportError::NoName => NO_NAME,
            ImportError::NoKey => NO_KEY,
            ImportError::NoNumber => NO_NUMBER,
        }
    }
}

// What an accepted line says. HttpOnly is only reported, since labels cannot say it.
#[derive(Clone, Copy)]
pub struct Cookie {
    pub key: u32,
    pub value: u32,
    pub flags: Flags,
    pub readers: u32,
}

// What C is told: 0, and what the line says; or the number of the first refusal that fits, and zeros.
#[repr(C)]
#[derive(Clone, Copy)]
pub struct Imported {
    pub number: u32,
    pub key: u32,
    pub value: u32,
    pub secure: bool,
    pub http_only: bool,
    pub readers: u32,
}

// Reads the text after the colon of a Set-Cookie header that a host sent.
pub fn import(host: u32, names: &[u8], line: &[u8]) -> Result<Cookie, ImportError>
    ensures { told result ≡ imported host names.now line.now }
{
    if HOSTS <= host {
        return Err(ImportError::HostUnknown);
    }
    let (pair, _) = cut(line, b';');
    let (name, value) = cut(pair, b'=');
    let value = value.ok_or(ImportError::NoName)?;
    let name = trim(name);
    if name.is_empty() {
        return Err(ImportError::NoName);
    }
    if names.len() != NAMES_BYTES {
        return Err(ImportError::NoKey);
    }
    let key = key_named(names, name).ok_or(ImportError::NoKey)?;
    let value = read_number(trim(value)).ok_or(ImportError::NoNumber)?;
    let flags = flags_of(&line[pair.len()..]);
    Ok(Cookie {
        key: key as u32,
        value,
        flags,
        readers: host_endpoints(host, flags.secure),
    })
}

// The same for C: include/cookie.h. Every length and content is answered.
#[unsafe(no_mangle)]
pub extern "C" fn cookie_import(host: u32, names: &[u8], text: &[u8]) -> Imported
    ensures { result ≡ imported host names.now text.now }
{
    match import(host, names, text) {
        Ok(cookie) => Imported {
            number: ACCEPTED,
            key: cookie.key,
            value: cookie.value,
            secure: cookie.flags.secure,
            http_only: cookie.flags.http_only,
            readers: cookie.readers,
        },
        Err(error) => Imported {
            number: error.number(),
            key: 0,
            value: 0,
            secure: false,
            http_only: false,
            readers: 0,
        },
    }
}
