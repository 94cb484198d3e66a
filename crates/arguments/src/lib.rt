// What programs are given as arguments, read without a heap.
#![tactic(auto)]

ghost use Rattle.std.specs.Prelude.{◌≡◌, ◌≤◌, IfOk, IfSome, length};
ghost use Rattle.std.specs.Result.{result_ok};
ghost use Rattle.arguments.specs.Numbers.{IsWritten, given};

use std::env::{Env, FillError};
use text::digits::read_number;

// No number has more digits.
const MOST_DIGITS: usize = 10;

// An argument that is no number.
#[derive(Clone, Copy, Debug, PartialEq, Eq)]
pub struct NoNumber;

// The number that an argument is, of one to ten digits and at most 4,294,967,295: `None` where there is no such argument, `NoNumber` where it is
// anything else. Argument 0 is the program's name.
pub fn number(rt: &impl Env, nth: usize) -> Result<Option<u32>, NoNumber>
    ensures { IfOk result (λ given. IfSome given IsWritten) }
{
    let mut digits = [0u8; MOST_DIGITS];
    read(rt.arg(nth, &mut digits), &digits)
}

// The same of the arguments that the host's runtime gives. By the bound of `number` a program would rest on what is assumed of each method of `Env`;
// by this it rests on what is assumed of `arg` alone.
pub fn runtime_number(rt: &HostRuntime, nth: usize) -> Result<Option<u32>, NoNumber>
    ensures { IfOk result (λ given. IfSome given IsWritten) }
{
    let mut digits = [0u8; MOST_DIGITS];
    let filled = rt.arg(nth, &mut digits);
    read(filled, &digits)
}

// What a buffer tells that was to be filled with an argument.
fn read(filled: Result<usize, FillError>, buffer: &[u8]) -> Result<Option<u32>, NoNumber>
    requires { IfOk filled (λ n. n ≤ length buffer.now) }
    ensures { result_ok result ≡ given filled buffer.now }
{
    match filled {
        Ok(length) => read_number(&buffer[..length]).map(Some).ok_or(NoNumber),
        Err(FillError::NotPresent) => Ok(None),
        Err(FillError::TooLong) => Err(NoNumber),
    }
}

#[cfg(test)]
mod tests {
    use super::*;

    // Arguments that a test gives.
    #[derive(Drop)]
    struct Given<'a> {
        arguments: &'a [&'a [u8]],
    }

    impl Env for Given<'_> {
        fn arg(&self, nth: usize, buffer: &mut [u8]) -> Result<usize, FillError> {
            let argument = self.arguments.get(nth).ok_or(FillError::NotPresent)?;
            let place = buffer.get_mut(..argument.len()).ok_or(FillError::TooLong)?;
            place.copy_from_slice(argument);
            Ok(argument.len())
        }

        fn var(&self, _name: &str, _buffer: &mut [u8]) -> Result<usize, FillError> {
            Err(FillError::NotPresent)
        }

        fn var_at(&self, _nth: usize, _buffer: &mut [u8]) -> Result<usize, FillError> {
            Err(FillError::NotPresent)
        }
    }

    #[test]
    fn reads_numbers_of_any_environment(rt: HostRuntime) {
        let given = Given {
            arguments: &[
                b"0",
                b"07",
                b"4294967295",
                b"4294967296",
                b"00000000007",
                b"7a",
                b"",
            ],
        };
        assert_eq!(rt; number(&given, 0), Ok(Some(0)));
        assert_eq!(rt; number(&given, 1), Ok(Some(7)));
        assert_eq!(rt; number(&given, 2), Ok(Some(4_294_967_295)));
        for nth in [3, 4, 5, 6] {
            assert_eq!(rt; number(&given, nth), Err(NoNumber));
        }
        assert_eq!(rt; number(&given, 7), Ok(None));
    }

    // The name of the program that runs the tests is no number.
    #[test]
    fn reads_the_arguments_of_the_host(rt: HostRuntime) {
        assert_eq!(rt; number(&rt, 0), Err(NoNumber));
        assert_eq!(rt; runtime_number(&rt, 0), Err(NoNumber));
        assert_eq!(rt; number(&rt, usize::MAX), Ok(None));
        assert_eq!(rt; runtime_number(&rt, usize::MAX), Ok(None));
    }
}
