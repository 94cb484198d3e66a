// Reading of a stream until a buffer is full.
#![tactic(auto)]

ghost use Rattle.std.specs.Prelude.{◌≡◌, ◌<◌, ◌≤◌, IfOk, OnErr, length, take, ℕ};
ghost use Rattle.std.specs.Io.{ReadsAtMost};
ghost use Rattle.std.specs.Io.KnownBytes.{Consumes, IsAtEnd, ReadConsumes};

use std::io;
use std::io::{ErrorKind, Read};

// Reads until the buffer is full or the input ends, and answers how many bytes stand at the front of the buffer. Where a read fails, so does this;
// the bytes that came before stand at the front of the buffer. A read that a signal interrupts is made again.
// A reader may write in the buffer past what it reads. The library's `read_exact` promises little where a read fails, so the loop is written out.
pub fn read_full<R: Read>(reader: &mut R, buffer: &mut [u8]) -> io::Result<usize>
    ensures fits { ReadsAtMost result buffer.new }
    ensures kept { length buffer.new ≡ length buffer.old }
    ensures bytes { IfOk result (λ n. Consumes (R.remaining reader.old) (R.remaining reader.new) (take n buffer.new)) }
    ensures whole { IfOk result (λ n. n < length buffer.new → IsAtEnd (R.remaining reader.new)) }
    ensures none_lost { OnErr result ((n : ℕ) × (n ≤ length buffer.new)
        × Consumes (R.remaining reader.old) (R.remaining reader.new) (take n buffer.new)) }
{
    let mut filled = 0;
    while filled < buffer.len() {
        let n = read_once(reader, &mut buffer[filled..])?;
        if n == 0 {
            break;
        }
        filled += n;
    }
    Ok(filled)
}

// One read, made again where a signal interrupts it.
fn read_once<R: Read>(reader: &mut R, buffer: &mut [u8]) -> io::Result<usize>
    ensures fits { ReadsAtMost result buffer.new }
    ensures bytes { ReadConsumes (R.remaining reader.old) (R.remaining reader.new) result buffer.new }
{
    for _ in 0..u64::MAX {
        match reader.read(buffer) {
            Err(error) if error.kind() == ErrorKind::Interrupted => {}
            read => return read,
        }
    }
    reader.read(buffer)
}

#[cfg(test)]
mod tests {
    use super::*;
    use std::test::Fail;

    // Gives at most two bytes a read. A read fails where as many bytes are left as it says; one that is interrupted comes through the next time.
    #[derive(Drop)]
    struct Pieces<'a> {
        left: &'a [u8],
        interrupted_at: Option<usize>,
        broken_at: Option<usize>,
    }

    impl Read for Pieces<'_> {
        fn read(&mut self, buf: &mut [u8]) -> io::Result<usize> {
            if self.interrupted_at == Some(self.left.len()) {
                self.interrupted_at = None;
                return Err(io::Error::from(ErrorKind::Interrupted));
            }
            if self.broken_at == Some(self.left.len()) {
                return Err(io::Error::from(ErrorKind::BrokenPipe));
            }
            let n = buf.len().min(self.left.len()).min(2);
            buf[..n].copy_from_slice(&self.left[..n]);
            self.left = &self.left[n..];
            Ok(n)
        }
    }

    #[test]
    fn reads_until_the_buffer_is_full(rt: HostRuntime) -> Result<(), Fail> {
        let mut pieces = Pieces {
            left: b"abcdefg",
            interrupted_at: Some(5),
            broken_at: None,
        };
        let mut buffer = [b'.'; 5];
        assert_eq!(rt; read_full(&mut pieces, &mut buffer)?, 5);
        assert_eq!(rt; &buffer, b"abcde");
        assert_eq!(rt; pieces.left, b"fg".as_slice());
        assert_eq!(rt; read_full(&mut pieces, &mut buffer)?, 2);
        assert_eq!(rt; &buffer, b"fgcde");
        assert_eq!(rt; read_full(&mut pieces, &mut buffer)?, 0);
        Ok(())
    }

    #[test]
    fn fails_where_a_read_does(rt: HostRuntime) {
        let mut pieces = Pieces {
            left: b"abcdefg",
            interrupted_at: None,
            broken_at: Some(3),
        };
        let mut buffer = [b'.'; 7];
        for _ in 0..2 {
            let error = read_full(&mut pieces, &mut buffer).expect_err(
                &rt,
                "the read at the fifth byte fails",
            );
            assert!(rt; error.kind() == ErrorKind::BrokenPipe);
            assert_eq!(rt; &buffer, b"abcd...");
        }
    }
}
