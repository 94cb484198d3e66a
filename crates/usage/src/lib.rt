// The tally of requests (document 01, "A tally of requests"): which URLs were requested, how often, and with how many cookies.
#![tactic(auto)]

ghost use Rattle.std.specs.Prelude.{◌≡◌, ◌≤◌, length};
ghost use Rattle.usage.specs.Tally.{in_range, list_bytes, refused, tallied};

use policy::words::CONNECTIONS;
pub use policy::words::URL_ROWS;
pub use records::ACCEPTED;
use records::{Direction, Record, SHORTEST_REQUEST};
use session::pending::SCRIPTS;

// The longest list that is counted.
pub const LIST_BYTES: usize = 65_536;

// The number of a list that is longer, or is not wholly request records that are in range.
pub const LIST_BAD: u32 = 13;

// What is answered: 0, for each URL its records and the cookies that they carry, and both in all; or 13 and zeros.
#[repr(C)]
#[derive(Clone, Copy)]
pub struct Tally {
    pub number: u32,
    pub records: [u32; URL_ROWS],
    pub cookies: [u32; URL_ROWS],
    pub all_records: u32,
    pub all_cookies: u32,
}

// The answer to a list without requests, with a number.
fn nothing(number: u32) -> Tally
    ensures { result ≡ refused number }
{
    Tally {
        number,
        records: [0; URL_ROWS],
        cookies: [0; URL_ROWS],
        all_records: 0,
        all_cookies: 0,
    }
}

// Whether URL, connection and handler are numbers that there can be.
fn in_range(request: Record) -> bool
    ensures { result ≡ in_range request }
{
    ((request.url as usize) < URL_ROWS)
        & ((request.connection as usize) < CONNECTIONS)
        & ((request.script as usize) < SCRIPTS)
}

// Counts a list that is not too long. The first bytes that are not a request in range refuse it. A tally, and no `Result` of one, which would take its room
// on the stack twice more: 2,640 bytes, where a caller has 2,048.
fn count(requests: &[u8]) -> Tally
    requires { length requests.now ≤ list_bytes }
    ensures { result ≡ tallied requests.now }
{
    let mut tally = nothing(ACCEPTED);
    // The totals stand apart, where the compiler keeps them in registers.
    let mut all_records = 0;
    let mut all_cookies = 0;
    let mut left = requests;
    while !left.is_empty() {
        let Ok(first) = records::decode_first(Direction::Request, left) else {
            return nothing(LIST_BAD);
        };
        let request = first.fields;
        if !in_range(request) {
            return nothing(LIST_BAD);
        }
        let url = request.url as usize;
        tally.records[url] += 1;
        all_records += 1;
        // Such a request carries no cookies. Passed by a constant, it need not be measured before the next one is read (without this arm a list
        // of such requests takes half as long again).
        if first.length == SHORTEST_REQUEST {
            left = &left[SHORTEST_REQUEST..];
            continue;
        }
        let carried = records::count_keys(request.keys) as u32;
        tally.cookies[url] += carried;
        all_cookies += carried;
        left = &left[first.length..];
    }
    tally.all_records = all_records;
    tally.all_cookies = all_cookies;
    tally
}

// Counts a list of request records one right after another: include/usage.h. Every length and content is answered.
#[unsafe(no_mangle)]
pub extern "C" fn usage_count(requests: &[u8]) -> Tally
    ensures { result ≡ tallied requests.now }
{
    if LIST_BYTES < requests.len() {
        return nothing(LIST_BAD);
    }
    count(requests)
}
