// What is printed of a journey.
ghost use Rattle.std.specs.Prelude.{◌≡◌, false, ◌++◌, ◌+◌, ◌<◌, ◌≤◌, length};
ghost use Rattle.machine.specs.Policy.{url_rows, connections};
ghost use Rattle.text.specs.Text.{decimal};
ghost use Rattle.text.specs.Writing.{HasRoom, Writes};
ghost use Rattle.journeys.specs.Journey.{carries};
ghost use Rattle.policy.specs.Forbidden.{forbids};
ghost use Rattle.journey.specs.Report.{head_text, place_text, set_text, owner_text, lack_text, failure_text};
ghost use Rattle.journey.specs.Report.{none_text, refusal_text, report, line_room, report_room, NoneCarries};

use journeys::failure::Failure;
use journeys::legs::Journey;
use journeys::{ACCEPTED, NO_CONNECTION, POLICY_BAD, journey_find};
use labels::Bits;
use policy::label_refusal::LabelRefusal;
use policy::words::CONNECTIONS;
use text::Writer;

// The line of a connection has fewer.
const LINE_BYTES: usize = 160;

pub const REPORT_BYTES: usize = 5 + LINE_BYTES * CONNECTIONS;

// Words, and a number behind them.
#[tactic(auto, using(text::proofs::Decimals::decimal_ten, text::proofs::Writing::writes_then))]
fn write_labelled(text: &mut Writer<'_>, words: &[u8], n: u32)
    requires { HasRoom text.old (length words.now + 10) }
    ensures { Writes text.old (words.now ++ decimal n) text.new }
{
    text.write_bytes(words);
    text.write_decimal(n);
}

#[tactic(auto, using(text::proofs::Decimals::number_room))]
fn write_head(text: &mut Writer<'_>, connection: u32, number: u32)
    requires { HasRoom text.old 30 }
    ensures { Writes text.old (head_text connection number) text.new }
{
    text.write_number(connection, b':');
    write_labelled(text, b" refused ", number);
}

#[tactic(auto, using(crate::proofs::Room::labelled_room))]
fn write_place(text: &mut Writer<'_>, url: u32, nth: u32, count: u32)
    requires { HasRoom text.old 44 }
    ensures { Writes text.old (place_text url nth count) text.new }
{
    write_labelled(text, b" at URL ", url);
    write_labelled(text, b" (", nth);
    write_labelled(text, b" of ", count);
}

// Which set lacks the endpoint.
fn set_words(forbidden: LabelRefusal) -> &'static [u8]
    ensures set { result.now ≡ set_text (forbids forbidden).number }
    ensures short { length result.now ≤ 33 }
{
    match forbidden {
        LabelRefusal::ReadersForbid(_) => b" is missing among the readers of ",
        LabelRefusal::WritersForbid(_) => b" is missing among the writers of ",
    }
}

fn write_owner(text: &mut Writer<'_>, of_url: bool, url: u32, connection: u32)
    requires { HasRoom text.old 21 }
    ensures { Writes text.old (owner_text of_url url connection) text.new }
{
    if of_url {
        return write_labelled(text, b"URL ", url);
    }
    write_labelled(text, b"connection ", connection);
}

fn write_lack(text: &mut Writer<'_>, failure: Failure, connection: u32)
    requires room { HasRoom text.old 77 }
    requires url { failure.url < url_rows }
    ensures { Writes text.old (lack_text (forbids failure.forbidden) failure.of_url failure.url connection) text.new }
{
    write_labelled(text, b"): endpoint ", failure.forbidden.missing());
    text.write_bytes(set_words(failure.forbidden));
    write_owner(text, failure.of_url, failure.url as u32, connection);
    text.write_bytes(b"\n");
}

// The line of a connection that does not carry the journey.
fn write_failure(text: &mut Writer<'_>, journey: Journey<'_, Bits>, connection: usize)
    requires room { HasRoom text.old line_room }
    requires one { connection < connections }
    requires fails { carries journey.policy.words.now journey.urls.now connection ≡ false }
    ensures { Writes text.old (failure_text journey.entry.policy.words.now journey.entry.urls.now connection) text.new }
{
    let Some(failure) = journey.first_stop(connection) else {
        return;
    };
    let url = u32::from(journey.urls[failure.place]);
    let nth = failure.place as u32 + 1;
    write_head(text, connection as u32, failure.forbidden.number());
    write_place(text, url, nth, journey.urls.len() as u32);
    write_lack(text, failure, connection as u32);
}

fn write_none(text: &mut Writer<'_>, journey: Journey<'_, Bits>)
    requires room { HasRoom text.old report_room }
    requires none { NoneCarries journey.policy.words.now journey.urls.now }
    ensures { Writes text.old (none_text journey.entry.policy.words.now journey.entry.urls.now) text.new }
{
    text.write_bytes(b"none\n");
    for connection in 0..CONNECTIONS {
        write_failure(text, journey, connection);
    }
}

// What is printed of a refusal.
fn refusal(number: u32) -> &'static [u8]
    ensures text { result.now ≡ refusal_text number }
    ensures short { length result.now ≤ 85 }
{
    if number == POLICY_BAD {
        b"refused 2: the policy has the wrong length or is not well formed\n"
    } else {
        b"refused 17: the journey is empty, longer than 16 URLs, or names a URL without a row\n"
    }
}

// All that is printed of a policy and a journey, by the answer that C is given.
#[tactic(auto, using(text::proofs::Decimals::number_room))]
pub fn write_report(text: &mut Writer<'_>, policy: &[u32], urls: &[u8])
    requires { HasRoom text.old report_room }
    ensures { Writes text.old (report policy.now urls.now) text.new }
{
    let found = journey_find(policy, urls);
    if found.number != ACCEPTED {
        return text.write_bytes(refusal(found.number));
    }
    if found.connection != NO_CONNECTION {
        return text.write_number(found.connection, b'\n');
    }
    if let Ok(journey) = Journey::parse(policy, urls) {
        write_none(text, journey);
    }
}
