// What a load and what an arrival asks and does. The numbers from 6 on are asked here, in their order.
ghost use Rattle.std.specs.Prelude.{◌≡◌, true, ◌&&◌, List, ℕ, ◌<◌, T, is_some, IfSome};
ghost use Rattle.machine.specs.Policy.{connections, is_url, is_connection, redirect_missing_reader, redirect_missing_writer};
ghost use Rattle.machine.specs.Session.{free, script_count, connection_word, sound, set_connection, send};
ghost use Rattle.machine.specs.Scripts.{run_script};
ghost use Rattle.machine.specs.Machine.{Load, carries_names, awaited, of_kind, to_target, receive};
ghost use Rattle.policy.specs.Given.{Url};
ghost use Rattle.policy.specs.Forbidden.{verdict, first_forbidden};
ghost use Rattle.session.specs.Kinds.{number_of};
ghost use Rattle.session.specs.Pending.{word_of};
ghost use Rattle.monitor.specs.Answers.{fed, did, done, reaction};
ghost use Rattle.monitor.specs.Events.{told, arrival, stored};
ghost use Rattle.monitor.specs.Given.{Arriving, Names, Holds};

use super::arrived::Arrived;
use super::done::Done;
use super::refusal::Refusal;
use labels::EndpointSet;
use policy::Policy;
use policy::label_refusal::LabelRefusal;
use policy::words::CONNECTIONS;
use records::Record;
use scripts::Table;
use session::pending::SCRIPTS;
use session::{Kind, Output, Pending, Session};

// Whether a URL and a connection are named by their numbers.
fn is_named<S: EndpointSet>(policy: Policy<'_, S>, url: usize, connection: usize) -> bool
    ensures { (result ≡ is_url policy.entry.words.now url && is_connection connection)
        × (result ≡ true → Url policy.entry.words.now url × (connection < connections)) }
{
    policy.is_url(url) & (connection < CONNECTIONS)
}

pub fn load<S: EndpointSet>(
    session: &mut Session<'_, S>,
    url: usize,
    connection: usize,
    out: &mut Output<'_>,
) -> Result<Done, Refusal>
    requires { out.old.at ≡ 0 }
    ensures memory { session.new.words.ghost_name ≡ session.old.words.ghost_name }
    ensures output_memory { out.new.buffer.ghost_name ≡ out.old.buffer.ghost_name }
    ensures policy { session.new.policy.words.now ≡ session.old.policy.words.now }
    ensures fed { (scripts : List ℕ) → fed result session.new.words.now out.new.buffer.now
        ≡ reaction session.old.policy.words.now scripts session.old.words.now (Load url connection) out.old.buffer.now }
{
    let policy = session.policy();
    if !is_named(policy, url, connection) {
        return Err(Refusal::NameUnknown);
    }
    policy.permit_load(connection, url)?;
    let pending = Pending::bare(Kind::Document, url as u8);
    session.send(connection, pending, out);
    Ok(Done::of(out, 0))
}

// A response after which a script runs, once its cookies are stored. The connection is freed first, so that the script may open it.
fn respond<S: EndpointSet>(
    session: &mut Session<'_, S>,
    table: Table<'_>,
    connection: usize,
    page: u8,
    script: u8,
    value: u32,
    out: &mut Output<'_>,
) -> Done
    requires { (connection < connections) × Url session.old.policy.words.now page × (script < script_count) × (out.old.at ≡ 0) }
    ensures memory { session.new.words.ghost_name ≡ session.old.words.ghost_name }
    ensures output_memory { out.new.buffer.ghost_name ≡ out.old.buffer.ghost_name }
    ensures policy { session.new.policy.words.now ≡ session.old.policy.words.now }
    ensures did { did result session.new.words.now out.new.buffer.now
        ≡ done
        (run_script session.old.policy.words.now table.entry.bytes.now connection page script value
        (set_connection connection free session.old.words.now))
        out.old.buffer.now }
{
    session.free(connection);
    let steps = table
        .script(script, connection, page)
        .run(session, value, out);
    Done::of(out, steps)
}

// A redirect, once its cookies are stored: what is pending on the connection moves to the target.
fn follow<S: EndpointSet>(
    session: &mut Session<'_, S>,
    connection: usize,
    pending: Pending,
    target: usize,
    out: &mut Output<'_>,
) -> Done
    requires { (connection < connections) × Url session.old.policy.words.now target × (out.old.at ≡ 0) }
    ensures memory { session.new.words.ghost_name ≡ session.old.words.ghost_name }
    ensures output_memory { out.new.buffer.ghost_name ≡ out.old.buffer.ghost_name }
    ensures policy { session.new.policy.words.now ≡ session.old.policy.words.now }
    ensures did { did result session.new.words.now out.new.buffer.now
        ≡ done
        (send session.old.policy.words.now connection (number_of pending.kind) pending.origin pending.handler target session.old.words.now)
        out.old.buffer.now }
{
    let moved = Pending {
        url: target as u8,
        ..pending
    };
    session.send(connection, moved, out);
    Done::of(out, 0)
}

// Whether a number that something carries names a script, or a URL.
fn carries_names<S: EndpointSet>(policy: Policy<'_, S>, what: Arrived) -> bool
    ensures { (result ≡ carries_names policy.entry.words.now (told what))
        × (result ≡ true → Names policy.entry.words.now what) }
{
    match what {
        Arrived::DocumentResponse(script) => usize::from(script) < SCRIPTS,
        Arrived::ScriptResponse(_) => true,
        Arrived::PictureResponse => true,
        Arrived::Redirect(target) => policy.is_url(target),
    }
}

// Whether a connection of a kind waits for it.
fn of_kind(kind: Kind, what: Arrived) -> bool
    ensures { result ≡ of_kind (number_of kind) (told what) }
{
    match what {
        Arrived::DocumentResponse(_) => kind == Kind::Document,
        Arrived::ScriptResponse(_) => kind == Kind::Script,
        Arrived::PictureResponse => kind == Kind::Picture,
        Arrived::Redirect(_) => true,
    }
}

// What is pending on the connection of a record, where it waits for what arrived.
fn waiting<S: EndpointSet>(session: &Session<'_, S>, from: Record, what: Arrived) -> Option<Pending>
    requires { Arriving session.now.policy.words.now from × T (sound session.now.policy.words.now session.now.words.now) }
    ensures awaited { is_some result ≡ awaited session.now.words.now (arrival from (told what)) }
    ensures word { IfSome result (λ pending. word_of pending ≡ connection_word session.now.words.now from.connection) }
    ensures holds { IfSome result (λ pending. Holds session.now.policy.words.now pending what) }
{
    let pending = session.pending(usize::from(from.connection))?;
    if (pending.url == from.url) & of_kind(pending.kind, what) {
        Some(pending)
    } else {
        None
    }
}

// What labels forbid of a redirect's target; of a response they forbid nothing.
#[tactic(auto, unfolding(prelude::specs::Refusals::first_of, prelude::specs::Choice::branch))]
fn permit_target<S: EndpointSet>(
    policy: Policy<'_, S>,
    connection: usize,
    what: Arrived,
) -> Result<(), LabelRefusal>
    requires { (connection < connections) × Names policy.words.now what }
    ensures { verdict result
        ≡ first_forbidden
        (to_target (redirect_missing_reader policy.entry.words.now connection) (told what))
        (to_target (redirect_missing_writer policy.entry.words.now connection) (told what)) }
{
    match what {
        Arrived::DocumentResponse(_) => Ok(()),
        Arrived::ScriptResponse(_) => Ok(()),
        Arrived::PictureResponse => Ok(()),
        Arrived::Redirect(target) => policy.permit_redirect(connection, target),
    }
}

// What is accepted on a connection, once its cookies are stored. The page of a document's script is the URL that the connection holds; the
// response to a script's request is handled for the page that sent it; after a picture nothing runs.
fn receive<S: EndpointSet>(
    session: &mut Session<'_, S>,
    table: Table<'_>,
    connection: usize,
    pending: Pending,
    what: Arrived,
    out: &mut Output<'_>,
) -> Done
    requires { (connection < connections)
        × Names session.old.policy.words.now what
        × Holds session.old.policy.words.now pending what
        × (out.old.at ≡ 0) }
    ensures memory { session.new.words.ghost_name ≡ session.old.words.ghost_name }
    ensures output_memory { out.new.buffer.ghost_name ≡ out.old.buffer.ghost_name }
    ensures policy { session.new.policy.words.now ≡ session.old.policy.words.now }
    ensures did { did result session.new.words.now out.new.buffer.now
        ≡ done
        (receive session.old.policy.words.now table.entry.bytes.now connection (word_of pending) (told what) session.old.words.now)
        out.old.buffer.now }
{
    match what {
        Arrived::DocumentResponse(script) => {
            respond(session, table, connection, pending.url, script, 0, out)
        }
        Arrived::ScriptResponse(value) => {
            let page = pending.origin;
            respond(
                session,
                table,
                connection,
                page,
                pending.handler,
                value,
                out,
            )
        }
        Arrived::PictureResponse => {
            session.free(connection);
            Done::of(out, 0)
        }
        Arrived::Redirect(target) => follow(session, connection, pending, target, out),
    }
}

// Stores the cookies of a record, for the host of its URL.
fn store<S: EndpointSet>(session: &mut Session<'_, S>, from: Record)
    requires { Arriving session.old.policy.words.now from }
    ensures memory { session.new.words.ghost_name ≡ session.old.words.ghost_name }
    ensures policy { session.new.policy.words.now ≡ session.old.policy.words.now }
    ensures words { session.new.words.now ≡ stored session.old.policy.words.now from session.old.words.now }
{
    let host = session.policy().url_host(usize::from(from.url));
    session.store_cookies(usize::from(from.connection), host, from.keys, from.cookies);
}

// Cookies are stored only once all is judged.
pub fn arrive<S: EndpointSet>(
    session: &mut Session<'_, S>,
    table: Table<'_>,
    from: Record,
    what: Arrived,
    out: &mut Output<'_>,
) -> Result<Done, Refusal>
    requires { T (sound session.old.policy.words.now session.old.words.now) × (out.old.at ≡ 0) }
    ensures memory { session.new.words.ghost_name ≡ session.old.words.ghost_name }
    ensures output_memory { out.new.buffer.ghost_name ≡ out.old.buffer.ghost_name }
    ensures policy { session.new.policy.words.now ≡ session.old.policy.words.now }
    ensures fed { fed result session.new.words.now out.new.buffer.now
        ≡ reaction session.old.policy.words.now table.entry.bytes.now session.old.words.now (arrival from (told what)) out.old.buffer.now }
{
    let policy = session.policy();
    let connection = usize::from(from.connection);
    if !is_named(policy, usize::from(from.url), connection) {
        return Err(Refusal::NameUnknown);
    }
    if !carries_names(policy, what) {
        return Err(Refusal::NameUnknown);
    }
    let Some(pending) = waiting(session, from, what) else {
        return Err(Refusal::NotAwaited);
    };
    permit_target(policy, connection, what)?;
    store(session, from);
    Ok(receive(session, table, connection, pending, what, out))
}
