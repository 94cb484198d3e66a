// The operations of scripts, as four bytes tell them.
ghost use Rattle.std.specs.Prelude.{◌≡◌, slice_index};
ghost use Rattle.machine.specs.Scripts.{step_of};
ghost use Rattle.scripts.specs.Operations.{told};

// What a step does. The numbers of registers, keys, URLs, connections and handlers are those of its bytes, whatever they name.
#[derive(Clone, Copy, Debug, PartialEq, Eq)]
pub enum Operation {
    End,
    Constant {
        register: u8,
        value: u32,
    },
    Add {
        register: u8,
        left: u8,
        right: u8,
    },
    ReadCookie {
        register: u8,
        key: u8,
    },
    WriteCookie {
        key: u8,
        register: u8,
    },
    SendRequest {
        url: u8,
        connection: u8,
        handler: u8,
    },
    SkipIfZero {
        register: u8,
        count: u8,
    },
    SendPicture {
        url: u8,
        connection: u8,
    },
}

// An unknown operation ends the script as 0 does.
impl From<[u8; 4]> for Operation {
    ghost from_gives = { λ bytes operation. told operation
        ≡ step_of (slice_index bytes 0) (slice_index bytes 1) (slice_index bytes 2) (slice_index bytes 3) };

    #[tactic(auto, unfolding(machine::specs::Scripts::step_of, prelude::specs::Choice::branch))]
    fn from(bytes: [u8; 4]) -> Operation {
        let [operation, a, b, c] = bytes;
        match operation {
            1 => Operation::Constant {
                register: a,
                value: 256 * u32::from(b) + u32::from(c),
            },
            2 => Operation::Add {
                register: a,
                left: b,
                right: c,
            },
            3 => Operation::ReadCookie {
                register: a,
                key: b,
            },
            4 => Operation::WriteCookie {
                key: a,
                register: b,
            },
            5 => Operation::SendRequest {
                url: a,
                connection: b,
                handler: c,
            },
            6 => Operation::SkipIfZero {
                register: a,
                count: b,
            },
            7 => Operation::SendPicture {
                url: a,
                connection: b,
            },
            _ => Operation::End,
        }
    }
}
