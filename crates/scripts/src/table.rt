// The script table, in memory that is lent.
ghost use Rattle.std.specs.Prelude.{◌≡◌, length};
ghost use Rattle.machine.specs.Scripts.{table_bytes};

use super::script::Script;
use super::{SCRIPT_BYTES, TABLE_BYTES};

// The bytes of 16 scripts, one after another.
#[derive(Clone, Copy)]
pub struct Table<'a> {
    bytes: &'a [u8],
    pub ghost whole: { length bytes.now ≡ table_bytes },
}

impl<'a> Table<'a> {
    ghost use Rattle.std.specs.Prelude.{◌≡◌, ◌<◌, eqb, is_some, IfSome, length};
    ghost use Rattle.machine.specs.Policy.{connections};
    ghost use Rattle.machine.specs.Scripts.{table_bytes, script_at};
    ghost use Rattle.machine.specs.Session.{script_count};

    pub fn parse(bytes: &'a [u8]) -> Option<Table<'a>>
        ensures whole { is_some result ≡ eqb (length bytes.now) table_bytes }
        ensures bytes { IfSome result (λ table. table.bytes.now ≡ bytes.now) }
    {
        if bytes.len() == TABLE_BYTES {
            Some(Table { bytes })
        } else {
            None
        }
    }

    // A script, of a response on a connection, for a page. It is lent no other script's bytes.
    #[tactic(auto, using(crate::proofs::Tables::part_is, crate::proofs::Tables::part_length))]
    pub fn script(self, number: u8, connection: usize, page: u8) -> Script<'a>
        requires { (number < script_count) × (connection < connections) }
        ensures code { result.code.now ≡ script_at self.entry.bytes.now number }
        ensures connection { result.connection ≡ connection }
        ensures page { result.page ≡ page }
    {
        let start = SCRIPT_BYTES * usize::from(number);
        Script::new(&self.bytes[start..start + SCRIPT_BYTES], connection, page)
    }
}
