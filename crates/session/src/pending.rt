// What is pending on a connection, as its word packs it.
ghost use Rattle.std.specs.Prelude.{◌≡◌, ◌<◌};
ghost use Rattle.std.specs.Result.{result_ok};
ghost use Rattle.machine.specs.Session.{packed, kind_of, origin_of, handler_of, url_of};
ghost use Rattle.session.specs.Pending.{word_of, pending_in};

use super::kinds::{Kind, NoKind};

// The word of a connection on which nothing is pending.
pub const FREE: u32 = 0;

// Scripts, and so handlers, are below this.
pub const SCRIPTS: usize = 16;

// A connection's kind and URL; for a script's request the page that sent it and the script that handles its response, else 0.
#[derive(Clone, Copy, Debug, PartialEq, Eq)]
pub struct Pending {
    pub kind: Kind,
    pub origin: u8,
    pub handler: u8,
    pub url: u8,
}

impl Pending {
    // Of a kind that has neither origin nor handler.
    pub fn bare(kind: Kind, url: u8) -> Pending
        ensures kind { result.kind ≡ kind }
        ensures origin { result.origin ≡ 0 }
        ensures handler { result.handler ≡ 0 }
        ensures url { result.url ≡ url }
    {
        Pending {
            kind,
            origin: 0,
            handler: 0,
            url,
        }
    }
}

impl From<Pending> for u32 {
    ghost from_gives = { λ pending word. word ≡ word_of pending };

    fn from(pending: Pending) -> u32 {
        let fields = Fields {
            kind: u32::from(pending.kind),
            origin: usize::from(pending.origin),
            handler: usize::from(pending.handler),
            url: usize::from(pending.url),
        };
        fields.word()
    }
}

// A free connection's word packs nothing, and neither does one of no kind.
impl TryFrom<u32> for Pending {
    type Error = NoKind;

    ghost try_from_gives = { λ word pending. result_ok pending ≡ pending_in word };

    fn try_from(word: u32) -> Result<Pending, NoKind> {
        let fields = Fields::of(word);
        Ok(Pending {
            kind: Kind::try_from(fields.kind)?,
            origin: fields.origin as u8,
            handler: fields.handler as u8,
            url: fields.url as u8,
        })
    }
}

// The fields of a connection's word, of any word: the kind is a number, whether a kind has it or not.
#[derive(Clone, Copy, Debug, PartialEq, Eq)]
pub struct Fields {
    pub kind: u32,
    pub origin: usize,
    pub handler: usize,
    pub url: usize,
}

impl Fields {
    // Of a kind that has neither origin nor handler.
    pub fn bare(kind: u32, url: usize) -> Fields
        ensures { (result.kind ≡ kind) × (result.origin ≡ 0) × (result.handler ≡ 0) × (result.url ≡ url) }
    {
        Fields {
            kind,
            origin: 0,
            handler: 0,
            url,
        }
    }

    #[tactic(auto, unfolding(machine::specs::Session::kind_of, machine::specs::Session::origin_of, machine::specs::Session::handler_of, machine::specs::Session::url_of))]
    pub fn of(word: u32) -> Fields
        ensures { (result.kind ≡ kind_of word) × (result.origin ≡ origin_of word) × (result.handler ≡ handler_of word) × (result.url ≡ url_of word)
            × (result.kind < 256) × (result.origin < 256) × (result.handler < 256) × (result.url < 256) }
    {
        Fields {
            kind: word / 0x100_0000,
            origin: (word / 0x1_0000 % 0x100) as usize,
            handler: (word / 0x100 % 0x100) as usize,
            url: (word % 0x100) as usize,
        }
    }

    #[tactic(auto, unfolding(machine::specs::Session::packed))]
    pub fn word(self) -> u32
        requires { (self.kind < 256) × (self.origin < 256) × (self.handler < 256) × (self.url < 256) }
        ensures { result ≡ packed self.kind self.origin self.handler self.url }
    {
        self.kind * 0x100_0000
            + self.origin as u32 * 0x1_0000
            + self.handler as u32 * 0x100
            + self.url as u32
    }
}
