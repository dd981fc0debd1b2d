// Standard input read to its end, and a page written to standard output, for the programs. What is read and
// what arrives is the system's matter: assumed is what the contracts of `read` and `write` say. Of a reader or a
// writer whose bytes are known, as one over memory, the contracts say which bytes were moved.
#![tactic(auto)]

ghost use Rattle.std.specs.Prelude.{◌≡◌, length};
ghost use Rattle.streams.specs.Says.{ReadWithin, ReadFrom, WrittenWithin, WrittenTo};

use std::io;
use std::io::{Error, ErrorKind, Read, Write};

// Reads until the input ends or the buffer is full, and answers how many bytes that were. A read that fails ends it:
// then the buffer begins with what was read before, and no more of the input is gone than that.
pub fn read_all<R: Read>(from: &mut R, bytes: &mut [u8]) -> io::Result<usize>
    ensures within { ReadWithin bytes.old result }
    ensures same_length { length bytes.new ≡ length bytes.old }
    ensures read { ReadFrom (R.remaining from.old) (R.remaining from.new) bytes.new result }
{
    let mut at = 0;
    while at < bytes.len() {
        let rest = &mut bytes[at..];
        let count = from.read(rest)?;
        if count == 0 {
            return Ok(at);
        }
        at += count;
    }
    Ok(at)
}

// Writes the first bytes of a page, all of them; nothing where the page has fewer.
// It ends at the first write that fails or takes nothing: then what was written is what the page begins with, and not all.
pub fn write_page<W: Write>(to: &mut W, page: &[u8], count: usize) -> io::Result<()>
    ensures within { WrittenWithin page.now count result }
    ensures written { WrittenTo (W.contents to.old) (W.contents to.new) page.now count result }
{
    if page.len() < count {
        return Err(Error::from(ErrorKind::InvalidInput));
    }
    let mut at = 0;
    while at < count {
        let taken = to.write(&page[at..count])?;
        if taken == 0 {
            return Err(Error::from(ErrorKind::WriteZero));
        }
        at += taken;
    }
    Ok(())
}

#[cfg(test)]
mod tests {
    use super::*;

    // Gives one byte a read, so many in all, and then fails.
    #[derive(Drop)]
    struct Failing(u8);

    impl Read for Failing {
        fn read(&mut self, buf: &mut [u8]) -> io::Result<usize> {
            if self.0 == 0 || buf.is_empty() {
                return Err(Error::from(ErrorKind::Other));
            }
            self.0 -= 1;
            buf[0] = b'x';
            Ok(1)
        }
    }

    // Takes one byte a write, so many in all, and then nothing.
    #[derive(Drop)]
    struct Filling(u8);

    impl Write for Filling {
        fn write(&mut self, buf: &[u8]) -> io::Result<usize> {
            if self.0 == 0 || buf.is_empty() {
                return Ok(0);
            }
            self.0 -= 1;
            Ok(1)
        }

        fn flush(&mut self) -> io::Result<()> {
            Ok(())
        }
    }

    #[test]
    fn reads_to_the_end_or_a_full_buffer(rt: HostRuntime) {
        let mut bytes = [0u8; 8];
        let mut short: &[u8] = b"shaft";
        assert_eq!(rt; read_all(&mut short, &mut bytes).ok(), Some(5));
        assert_eq!(rt; bytes, *b"shaft\0\0\0");
        let mut long: &[u8] = b"shaft line";
        assert_eq!(rt; read_all(&mut long, &mut bytes).ok(), Some(8));
        assert_eq!(rt; bytes, *b"shaft li");
    }

    #[test]
    fn tells_a_failed_read(rt: HostRuntime) {
        let mut bytes = [0u8; 8];
        assert_eq!(rt; read_all(&mut Failing(3), &mut bytes).ok(), None);
        assert_eq!(rt; bytes, *b"xxx\0\0\0\0\0");
        assert_eq!(rt; read_all(&mut Failing(8), &mut bytes).ok(), Some(8));
    }

    #[test]
    fn tells_whether_all_was_written(rt: HostRuntime) {
        assert!(rt; write_page(&mut Filling(9), b"shaft line", 9).is_ok());
        assert!(rt; write_page(&mut Filling(8), b"shaft line", 9).is_err());
        assert!(rt; write_page(&mut Filling(99), b"shaft line", 11).is_err());
        assert!(rt; write_page(&mut Filling(0), b"shaft line", 0).is_ok());
    }
}
