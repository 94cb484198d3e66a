// The refusals of what is lent, that of a malformed record, and then what the record's kind asks and does.
ghost use Rattle.std.specs.Prelude.{◌≡◌, T};
ghost use Rattle.machine.specs.Session.{sound};
ghost use Rattle.machine.specs.Machine.{plain_map, arrived_of, event_of, feed};
ghost use Rattle.monitor.specs.Answers.{fed, reaction};
ghost use Rattle.monitor.specs.Events.{told};

use super::arrived::Arrived;
use super::done::Done;
use super::events::{arrive, load};
use super::refusal::Refusal;
use labels::{Bits, EndpointSet};
use policy::Policy;
use records::map_bytes::{
    DOCUMENT_RESPONSE, LOAD, PICTURE_RESPONSE, SCRIPT_RESPONSE, WITH_COOKIES,
};
use records::{Direction, LONGEST_REQUEST, Record};
use scripts::{STEP_LIMIT, Table};
use session::soundness::sound;
use session::{Output, Session};

// Room for as many requests as a script can send, each as long as can be.
pub const OUTPUT_ROOM: usize = STEP_LIMIT as usize * LONGEST_REQUEST;

// The map byte without its bit for cookies.
fn plain_map(map: u8) -> u8
    ensures { result ≡ plain_map map }
{
    map - WITH_COOKIES * (map / WITH_COOKIES % 2)
}

// What a record that is no load tells of.
#[tactic(auto, unfolding(machine::specs::Machine::arrived_of, prelude::specs::Choice::branch))]
fn arrived_of<S: EndpointSet>(policy: Policy<'_, S>, fields: Record) -> Arrived
    ensures { told result ≡ arrived_of policy.entry.words.now fields }
{
    match plain_map(fields.map) {
        DOCUMENT_RESPONSE => Arrived::DocumentResponse(fields.script),
        SCRIPT_RESPONSE => Arrived::ScriptResponse(fields.value),
        PICTURE_RESPONSE => Arrived::PictureResponse,
        _ => Arrived::Redirect(policy.upgraded(usize::from(fields.target))),
    }
}

// A record that can be read.
fn react<S: EndpointSet>(
    session: &mut Session<'_, S>,
    table: Table<'_>,
    fields: Record,
    out: &mut Output<'_>,
) -> Result<Done, Refusal>
    requires { T (sound session.old.policy.words.now session.old.words.now) × (out.old.at ≡ 0) }
    ensures memory { session.new.words.ghost_name ≡ session.old.words.ghost_name }
    ensures output_memory { out.new.buffer.ghost_name ≡ out.old.buffer.ghost_name }
    ensures policy { session.new.policy.words.now ≡ session.old.policy.words.now }
    ensures fed { fed result session.new.words.now out.new.buffer.now
        ≡ reaction session.old.policy.words.now table.entry.bytes.now session.old.words.now
        (event_of session.old.policy.words.now fields) out.old.buffer.now }
{
    let policy = session.policy();
    if plain_map(fields.map) == LOAD {
        let url = policy.upgraded(usize::from(fields.url));
        return load(session, url, usize::from(fields.connection), out);
    }
    let what = arrived_of(policy, fields);
    arrive(session, table, fields, what, out)
}

pub fn feed(
    policy: &[u32],
    scripts: &[u8],
    state: &mut [u32],
    bytes: &[u8],
    out: &mut [u8],
) -> Result<Done, Refusal>
    ensures { fed result state.new out.new
        ≡ feed policy.now scripts.now state.old bytes.now out.old }
{
    if out.len() < OUTPUT_ROOM {
        return Err(Refusal::OutputShort);
    }
    let Some(policy) = Policy::<Bits>::parse(policy) else {
        return Err(Refusal::PolicyBad);
    };
    let Some(table) = Table::parse(scripts) else {
        return Err(Refusal::ScriptsBad);
    };
    if !sound(policy, state) {
        return Err(Refusal::StateUnsound);
    }
    let fields = records::decode(Direction::Input, bytes)?;
    let mut session = Session::new(policy, state);
    let mut out = Output::new(out);
    react(&mut session, table, fields, &mut out)
}
