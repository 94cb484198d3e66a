// The kinds of connection: the number of each, the map byte of its request, and the shape of its word.
ghost use Rattle.std.specs.Prelude.{◌≡◌, ◌<◌};
ghost use Rattle.std.specs.Result.{result_ok};
ghost use Rattle.machine.specs.Session.{plain_request};
ghost use Rattle.session.specs.Kinds.{number_of, kind_numbered, bare_shape, bare_word, script_shape};

use super::pending::SCRIPTS;
use policy::words::URL_ROWS;
use records::map_bytes::{DOCUMENT_REQUEST, PICTURE_REQUEST, SCRIPT_REQUEST};

// What a connection is open for. A script's request is named for the script.
#[derive(Clone, Copy, Debug, PartialEq, Eq)]
pub enum Kind {
    Document = 1,
    Script = 2,
    Picture = 3,
}

// The map byte of the request of a kind, by its number, where no cookies follow. A number of no kind is taken as a document's.
#[tactic(auto, unfolding(machine::specs::Session::plain_request, prelude::specs::Choice::branch))]
pub fn plain_request(number: u32) -> u8
    ensures { (result ≡ plain_request number) × (result < 128) }
{
    match Kind::try_from(number) {
        Ok(Kind::Script) => SCRIPT_REQUEST,
        Ok(Kind::Picture) => PICTURE_REQUEST,
        Ok(Kind::Document) | Err(NoKind) => DOCUMENT_REQUEST,
    }
}

impl From<Kind> for u32 {
    ghost from_gives = { λ kind number. number ≡ number_of kind };

    fn from(kind: Kind) -> u32 {
        kind as u32
    }
}

// No kind has this number.
#[derive(Clone, Copy, Debug, PartialEq, Eq)]
pub struct NoKind;

impl TryFrom<u32> for Kind {
    type Error = NoKind;

    ghost try_from_gives = { λ number kind. result_ok kind ≡ kind_numbered number };

    fn try_from(number: u32) -> Result<Kind, NoKind> {
        match number {
            1 => Ok(Kind::Document),
            2 => Ok(Kind::Script),
            3 => Ok(Kind::Picture),
            _ => Err(NoKind),
        }
    }
}

// The shapes are asked of the whole word, so that each is a few comparisons.

// The word of a kind that has neither origin nor handler: a URL below 64, and 0 between, which is one range of words.
fn is_bare_word(kind: Kind, word: u32) -> bool
    ensures { result ≡ bare_word (number_of kind) word }
{
    let first = u32::from(kind) * 0x100_0000;
    (first <= word) & (word < first + URL_ROWS as u32)
}

pub fn is_bare(word: u32) -> bool
    ensures { result ≡ bare_shape word }
{
    is_bare_word(Kind::Document, word) | is_bare_word(Kind::Picture, word)
}

// A script's request: an origin below 64 is a range of words too.
pub fn is_script(word: u32) -> bool
    ensures { result ≡ script_shape word }
{
    let first = u32::from(Kind::Script) * 0x100_0000;
    (first <= word)
        & (word < first + 0x40_0000)
        & (word / 0x100 % 0x100 < SCRIPTS as u32)
        & (word % 0x100 < URL_ROWS as u32)
}
