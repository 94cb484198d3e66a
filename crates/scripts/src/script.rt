// A script that runs, step by step.
ghost use Rattle.std.specs.Prelude.{◌≡◌, ◌<◌, length};
ghost use Rattle.machine.specs.Policy.{connections};
ghost use Rattle.machine.specs.Scripts.{script_bytes};

use super::operation::Operation;
use super::steps::{add, constant, read_cookie, send_request, skip_if_zero, write_cookie};
use super::{SCRIPT_STEPS, STEP_LIMIT};
use labels::EndpointSet;
use session::{Kind, Output, Pending, Session};

// A script's bytes, the connection whose labels it has, and the page that it runs for.
#[derive(Clone, Copy)]
pub struct Script<'a> {
    code: &'a [u8],
    connection: usize,
    page: u8,
    pub ghost whole: { length code.now ≡ script_bytes },
    pub ghost labelled: { connection < connections },
}

impl<'a> Script<'a> {
    ghost use Rattle.std.specs.Prelude.{◌≡◌, ◌<◌, length};
    ghost use Rattle.machine.specs.Policy.{connections};
    ghost use Rattle.machine.specs.Scripts.{script_bytes, script_steps, step_limit, starting_with, step, step_at, run_from};
    ghost use Rattle.policy.specs.Given.{Url};
    ghost use Rattle.session.specs.Output.{output};
    ghost use Rattle.scripts.specs.Operations.{told};
    ghost use Rattle.scripts.specs.Reached.{reached, after, ran, finished};

    // Of any 128 bytes.
    pub fn new(code: &'a [u8], connection: usize, page: u8) -> Script<'a>
        requires { (length code.now ≡ script_bytes) × (connection < connections) }
        ensures code { result.code.now ≡ code.now }
        ensures connection { result.connection ≡ connection }
        ensures page { result.page ≡ page }
    {
        Script {
            code,
            connection,
            page,
        }
    }

    #[tactic(auto, unfolding(machine::specs::Scripts::step_at))]
    fn operation(self, place: usize) -> Operation
        requires { place < script_steps }
        ensures { told result ≡ step_at self.entry.code.now place }
    {
        let at = 4 * place;
        Operation::from([
            self.code[at],
            self.code[at + 1],
            self.code[at + 2],
            self.code[at + 3],
        ])
    }

    // One step: the place of the next one, if the script goes on.
    #[tactic(auto, unfolding(machine::specs::Scripts::step, machine::specs::Scripts::goes_on, machine::specs::Scripts::ended, session::specs::Output::write_each), using(crate::proofs::Requests::none_requested))]
    fn step<S: EndpointSet>(
        self,
        session: &mut Session<'_, S>,
        registers: &mut [u32; 4],
        place: usize,
        out: &mut Output<'_>,
    ) -> Option<usize>
        requires { Url session.old.policy.words.now self.page × (place < script_steps) }
        ensures memory { session.new.words.ghost_name ≡ session.old.words.ghost_name }
        ensures output_memory { out.new.buffer.ghost_name ≡ out.old.buffer.ghost_name }
        ensures policy { session.new.policy.words.now ≡ session.old.policy.words.now }
        ensures reached { reached result registers.new session.new.words.now (output out.new.at out.new.buffer.now)
            ≡ after
            (step session.old.policy.words.now self.entry.connection self.entry.page (step_at self.entry.code.now place) place
            registers.old session.old.words.now)
            (output out.old.at out.old.buffer.now) }
    {
        let connection = self.connection;
        let page = self.page;
        match self.operation(place) {
            Operation::End => None,
            Operation::Constant { register, value } => constant(registers, place, register, value),
            Operation::Add {
                register,
                left,
                right,
            } => add(registers, place, register, left, right),
            Operation::ReadCookie { register, key } => {
                read_cookie(session, connection, page, registers, place, register, key)
            }
            Operation::WriteCookie { key, register } => {
                write_cookie(session, connection, page, registers, place, key, register)
            }
            Operation::SendRequest {
                url,
                connection: via,
                handler,
            } => {
                let pending = Pending {
                    kind: Kind::Script,
                    origin: page,
                    handler,
                    url: u8::try_from(session.policy().upgraded(usize::from(url))).ok()?,
                };
                send_request(session, connection, place, via, pending, out)
            }
            Operation::SkipIfZero { register, count } => {
                skip_if_zero(registers, place, register, count)
            }
            Operation::SendPicture {
                url,
                connection: via,
            } => {
                let url = u8::try_from(session.policy().upgraded(usize::from(url))).ok()?;
                let pending = Pending::bare(Kind::Picture, url);
                send_request(session, connection, place, via, pending, out)
            }
        }
    }

    // Runs the script, with a value in register 0, and answers how many steps it met. Requests are written after those that are written.
    pub fn run<S: EndpointSet>(
        self,
        session: &mut Session<'_, S>,
        value: u32,
        out: &mut Output<'_>,
    ) -> u32
        requires { Url session.old.policy.words.now self.page }
        ensures memory { session.new.words.ghost_name ≡ session.old.words.ghost_name }
        ensures output_memory { out.new.buffer.ghost_name ≡ out.old.buffer.ghost_name }
        ensures policy { session.new.policy.words.now ≡ session.old.policy.words.now }
        ensures ran { ran result session.new.words.now (output out.new.at out.new.buffer.now)
            ≡ finished 0
            (run_from step_limit (step_at self.entry.code.now) session.old.policy.words.now self.entry.connection self.entry.page 0
            (starting_with value) session.old.words.now)
            (output out.old.at out.old.buffer.now) }
    {
        let mut next = Some(0);
        let mut registers = [value, 0, 0, 0];
        for steps in 0..STEP_LIMIT {
            let Some(place) = next else {
                return steps;
            };
            if SCRIPT_STEPS <= place {
                return steps;
            }
            next = self.step(session, &mut registers, place, out);
        }
        STEP_LIMIT
    }
}
