// A lent slice filled from a reader.
#![tactic(auto)]

ghost use Rattle.std.specs.Prelude.{take};
ghost use Rattle.std.specs.Counts.{IsPrefixLen};
ghost use Rattle.std.specs.Io.KnownBytes.{Consumes};

use std::io::Read;

// Reads until the buffer is full, the reader is at its end or a read fails, and answers how many bytes that puts at the front of the buffer:
// what the reader gives, in order, each byte once.
pub fn read_full<R: Read>(reader: &mut R, buffer: &mut [u8]) -> usize
    ensures bound { IsPrefixLen result buffer.new }
    ensures bytes { Consumes (R.remaining reader.old) (R.remaining reader.new) (take result buffer.new) }
{
    let mut done = 0;
    // a `while`: how much a read gives only the read tells
    while done < buffer.len() {
        match reader.read(&mut buffer[done..]) {
            Ok(n) if n > 0 => done += n,
            _ => break,
        }
    }
    done
}

#[cfg(test)]
mod tests {
    use super::*;
    use std::io;
    use std::test::Fail;

    #[test]
    fn stops_where_the_bytes_end(rt: HostRuntime) -> Result<(), Fail> {
        let mut bytes: &[u8] = b"rule";
        let mut buffer = [0u8; 6];
        assert_eq!(rt; read_full(&mut bytes, &mut buffer), 4);
        assert_eq!(rt; buffer, *b"rule\0\0");
        Ok(())
    }

    #[test]
    fn stops_where_the_buffer_is_full(rt: HostRuntime) -> Result<(), Fail> {
        let mut bytes: &[u8] = b"rule";
        let mut buffer = [0u8; 3];
        assert_eq!(rt; read_full(&mut bytes, &mut buffer), 3);
        assert_eq!(rt; buffer, *b"rul");
        assert_eq!(rt; bytes, b"e".as_slice());
        Ok(())
    }

    // Gives two bytes at a read, and fails at the third.
    #[derive(Drop)]
    struct Failing {
        reads: u8,
    }

    impl Read for Failing {
        fn read(&mut self, buffer: &mut [u8]) -> io::Result<usize> {
            if self.reads >= 2 || buffer.len() < 2 {
                return Err(io::Error::from(io::ErrorKind::BrokenPipe));
            }
            self.reads += 1;
            buffer[0] = b'a';
            buffer[1] = b'b';
            Ok(2)
        }
    }

    #[test]
    fn keeps_what_came_before_a_failure(rt: HostRuntime) -> Result<(), Fail> {
        let mut reader = Failing { reads: 0 };
        let mut buffer = [0u8; 6];
        assert_eq!(rt; read_full(&mut reader, &mut buffer), 4);
        assert_eq!(rt; buffer, *b"abab\0\0");
        Ok(())
    }
}
