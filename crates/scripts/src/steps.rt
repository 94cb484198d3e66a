// The steps of a script. A field that is used and out of range ends the script, and so does a read or a request that is not allowed. Where
// a script goes on, the answer is the place of its next step.
#![tactic(auto, unfolding(machine::specs::Scripts::step, machine::specs::Scripts::goes_on, machine::specs::Scripts::ended, prelude::specs::Choice::branch))]

ghost use Rattle.std.specs.Prelude.{◌≡◌, ℕ, ◌<◌, List};
ghost use Rattle.prelude.specs.Choice.{branch};
ghost use Rattle.labels.specs.Addresses.{hosts};
ghost use Rattle.machine.specs.Policy.{host_keys, connections, cookie_index, may_write};
ghost use Rattle.machine.specs.Session.{set_cookie};
ghost use Rattle.machine.specs.Scripts.{script_steps, requested, step, goes_on};
ghost use Rattle.machine.specs.Scripts.{constant, add, read_cookie, write_cookie, skip_if_zero};
ghost use Rattle.policy.specs.Given.{Url};
ghost use Rattle.session.specs.Kinds.{number_of};
ghost use Rattle.session.specs.Output.{output};
ghost use Rattle.scripts.specs.Reached.{place_of, reached, after};

use labels::EndpointSet;
use policy::words::{CONNECTIONS, HOST_KEYS};
use session::pending::SCRIPTS;
use session::{Output, Pending, Session};

const REGISTERS: usize = 4;

// Step 1.
pub fn constant(registers: &mut [u32; 4], place: usize, register: u8, value: u32) -> Option<usize>
    requires { place < script_steps }
    ensures { (p s : List ℕ) (n page : ℕ) → goes_on (place_of result) registers.new s
        ≡ step p n page (constant register value) place registers.old s }
{
    let register = usize::from(register);
    if register >= REGISTERS {
        return None;
    }
    registers[register] = value;
    Some(place + 1)
}

// Step 2: the sum wraps.
pub fn add(
    registers: &mut [u32; 4],
    place: usize,
    register: u8,
    left: u8,
    right: u8,
) -> Option<usize>
    requires { place < script_steps }
    ensures { (p s : List ℕ) (n page : ℕ) → goes_on (place_of result) registers.new s
        ≡ step p n page (add register left right) place registers.old s }
{
    let register = usize::from(register);
    let left = usize::from(left);
    let right = usize::from(right);
    if (register < REGISTERS) & ((left < REGISTERS) & (right < REGISTERS)) {
        registers[register] = registers[left].wrapping_add(registers[right]);
        return Some(place + 1);
    }
    None
}

// Step 6.
pub fn skip_if_zero(registers: &[u32; 4], place: usize, register: u8, count: u8) -> Option<usize>
    requires { place < script_steps }
    ensures { (p s : List ℕ) (n page : ℕ) → goes_on (place_of result) registers.now s
        ≡ step p n page (skip_if_zero register count) place registers.now s }
{
    let register = usize::from(register);
    if register >= REGISTERS {
        return None;
    }
    if registers[register] == 0 {
        return Some(place + 1 + usize::from(count));
    }
    Some(place + 1)
}

// Step 3: a cookie of the page's host.
pub fn read_cookie<S: EndpointSet>(
    session: &Session<'_, S>,
    connection: usize,
    page: u8,
    registers: &mut [u32; 4],
    place: usize,
    register: u8,
    key: u8,
) -> Option<usize>
    requires { Url session.now.policy.words.now page × (connection < connections) × (place < script_steps) }
    ensures { goes_on (place_of result) registers.new session.now.words.now
        ≡ step session.now.policy.words.now connection page (read_cookie register key) place registers.old session.now.words.now }
{
    let register = usize::from(register);
    let key = usize::from(key);
    if key >= HOST_KEYS {
        return None;
    }
    let host = session.policy().url_host(usize::from(page));
    if (register < REGISTERS)
        & (session.is_present(host, key) & session.policy().may_read(connection, host, key))
    {
        registers[register] = session.cookie_value(host, key);
        return Some(place + 1);
    }
    None
}

// A write that is not allowed is passed over.
fn set_if_allowed<S: EndpointSet>(
    session: &mut Session<'_, S>,
    connection: usize,
    host: usize,
    key: usize,
    value: u32,
)
    requires { (connection < connections) × (host < hosts) × (key < host_keys) }
    ensures memory { session.new.words.ghost_name ≡ session.old.words.ghost_name }
    ensures policy { session.new.policy.words.now ≡ session.old.policy.words.now }
    ensures words { session.new.words.now
        ≡ branch (may_write session.old.policy.words.now connection (cookie_index host key))
        (set_cookie host key value session.old.words.now)
        session.old.words.now }
{
    if session.policy().may_write(connection, host, key) {
        session.set_cookie(host, key, value);
    }
}

// Step 4: a cookie of the page's host.
pub fn write_cookie<S: EndpointSet>(
    session: &mut Session<'_, S>,
    connection: usize,
    page: u8,
    registers: &[u32; 4],
    place: usize,
    key: u8,
    register: u8,
) -> Option<usize>
    requires { Url session.old.policy.words.now page × (connection < connections) × (place < script_steps) }
    ensures memory { session.new.words.ghost_name ≡ session.old.words.ghost_name }
    ensures policy { session.new.policy.words.now ≡ session.old.policy.words.now }
    ensures goes_on { goes_on (place_of result) registers.now session.new.words.now
        ≡ step session.old.policy.words.now connection page (write_cookie key register) place registers.now session.old.words.now }
{
    let key = usize::from(key);
    let register = usize::from(register);
    if key >= HOST_KEYS {
        return None;
    }
    if register >= REGISTERS {
        return None;
    }
    let host = session.policy().url_host(usize::from(page));
    set_if_allowed(session, connection, host, key, registers[register]);
    Some(place + 1)
}

// Steps 5 and 7: a request on the connection `via`, and what is then pending there.
#[tactic(auto, unfolding(machine::specs::Scripts::requested, machine::specs::Scripts::goes_on_after, machine::specs::Scripts::ended, machine::specs::Session::send, session::specs::Output::write_each, prelude::specs::Choice::branch))]
pub fn send_request<S: EndpointSet>(
    session: &mut Session<'_, S>,
    connection: usize,
    place: usize,
    via: u8,
    pending: Pending,
    out: &mut Output<'_>,
) -> Option<usize>
    requires { (connection < connections) × (place < script_steps) }
    ensures memory { session.new.words.ghost_name ≡ session.old.words.ghost_name }
    ensures output_memory { out.new.buffer.ghost_name ≡ out.old.buffer.ghost_name }
    ensures policy { session.new.policy.words.now ≡ session.old.policy.words.now }
    ensures reached { (rs : List ℕ) → reached result rs session.new.words.now (output out.new.at out.new.buffer.now)
        ≡ after
        (requested session.old.policy.words.now connection (number_of pending.kind) pending.origin pending.handler pending.url via
        place rs session.old.words.now)
        (output out.old.at out.old.buffer.now) }
{
    let url = usize::from(pending.url);
    let via = usize::from(via);
    if !session.policy().is_url(url) {
        return None;
    }
    if via >= CONNECTIONS {
        return None;
    }
    if usize::from(pending.handler) >= SCRIPTS {
        return None;
    }
    if !session.policy().may_send(connection, url, via) {
        return None;
    }
    session.send(via, pending, out);
    Some(place + 1)
}
