// The parts of walk's input: policy words, script table, then records, each after one length byte.
ghost use Rattle.std.specs.Prelude.{◌≡◌, ◌≤◌, ◌∷◌, ◌++◌, length, drop, MatchResult};
ghost use Rattle.transcript.specs.Input.{policy_bytes, input_size, told_size, policy_of, policy_in, words_read};

use policy::words::WORDS;
use scripts::TABLE_BYTES;

pub const POLICY_BYTES: usize = 4 * WORDS;

// The records follow the policy and the script table.
pub const RECORDS_AT: usize = POLICY_BYTES + TABLE_BYTES;

pub const INPUT_LIMIT: usize = 65_536;

// Why walk does not take an input.
#[derive(Clone, Copy)]
pub enum Unfit {
    TooShort,
    TooLong,
}

// Whether walk takes an input.
pub fn input_size(input: &[u8]) -> Result<(), Unfit>
    ensures { told_size result ≡ input_size input.now }
{
    if input.len() < RECORDS_AT {
        return Err(Unfit::TooShort);
    }
    if INPUT_LIMIT < input.len() {
        return Err(Unfit::TooLong);
    }
    Ok(())
}

// The policy's words, at the front of an input.
pub fn policy_words(input: &[u8]) -> [u32; WORDS]
    requires { policy_bytes ≤ length input.now }
    ensures { result ≡ policy_of input.now }
{
    let (quads, _) = input.as_chunks::<4>();
    let mut words = [0; WORDS];
    for (i, word) in words.iter_mut().enumerate() {
        *word = u32::from_be_bytes(quads[i]);
    }
    words
}

// One byte more than a policy has, so that a longer input is seen.
pub const POLICY_INPUT_ROOM: usize = POLICY_BYTES + 1;

// The policy of an input that is nothing else; none where the input has another length.
pub fn read_policy(input: &[u8]) -> Option<[u32; WORDS]>
    ensures { words_read result ≡ policy_in input.now }
{
    if input.len() == POLICY_BYTES {
        Some(policy_words(input))
    } else {
        None
    }
}

// How the records end: after a whole one, or within one.
#[derive(Clone, Copy)]
pub enum Ending {
    End,
    Cut,
}

// The records that are left of an input.
#[derive(Clone, Copy)]
pub struct Records<'a> {
    rest: &'a [u8],
}

impl<'a> Records<'a> {
    ghost use Rattle.transcript.specs.Input.{next_record, Record, Last};

    // Those from a place of the input on.
    pub fn new(input: &'a [u8], at: usize) -> Records<'a>
        ensures { result.rest.now ≡ drop at input.now }
    {
        let rest = if at < input.len() { &input[at..] } else { &[] };
        Records { rest }
    }

    // The next record, whose bytes are all there; or how the records end.
    pub fn next_record(&mut self) -> Result<&'a [u8], Ending>
        ensures { MatchResult result
            (λ bytes. (next_record self.old.rest.now 0 ≡ Record 1 (length bytes.now))
            × (self.old.rest.now ≡ length bytes.now ∷ (bytes.now ++ self.new.rest.now)))
            (λ ending. (next_record self.old.rest.now 0 ≡ Last ending) × (self.new.rest.now ≡ self.old.rest.now)) }
    {
        let Some((length, rest)) = self.rest.split_first() else {
            return Err(Ending::End);
        };
        let Some((record, rest)) = rest.split_at_checked(usize::from(*length)) else {
            return Err(Ending::Cut);
        };
        self.rest = rest;
        Ok(record)
    }
}
