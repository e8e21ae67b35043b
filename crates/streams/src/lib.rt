// An input that arrived whole, or why it did not; the end of an output; and the line that says what failed.
#![tactic(auto)]

ghost use Rattle.std.specs.Prelude.{IfSome};
ghost use Rattle.streams.specs.Arrivals.{Fills, Holds};

use std::fmt::{Display, InlineText};
use std::fs::{File, OpenFile};
use std::io::{ErrorKind, Read};
use std::rt::Files;
use std::{fs, io};

// Reads until the input ends or the room is full, and answers how many bytes are then at the start of the room. Where one read fails, what came before it
// is no input.
pub fn read_whole<R: Read>(input: &mut R, room: &mut [u8]) -> io::Result<usize>
    ensures fills { Fills result room.new }
    ensures holds { IfSome (R.remaining input.old) (Holds result room.new) }
{
    let mut done = 0;
    // A `while`: how far a turn goes is the reader's to say.
    while done < room.len() {
        let more = input.read(&mut room[done..])?;
        if more == 0 {
            return Ok(done);
        }
        done += more;
    }
    Ok(done)
}

// Standard output as a file, where it is one.
const OUTPUT: &str = "/dev/stdout";

// Whether this error of a sync says only that what was written to has no sync.
fn has_no_sync(error: &io::Error) -> bool {
    matches!(
        error.kind(),
        ErrorKind::InvalidInput | ErrorKind::Unsupported
    )
}

// Answers whether all that was written to standard output got where it goes: a network file system says only now that its disk is full. Of a pipe or a
// terminal, and of a file that may not be opened again, the writes have said all that there is to know.
pub fn end_output(files: &impl Files) -> io::Result<()> {
    match fs::metadata(files, OUTPUT) {
        Ok(found) if found.is_file() => {}
        _ => return Ok(()),
    }
    let Ok(file) = File::options().write(true).open(files, OUTPUT) else {
        return Ok(());
    };
    match file.sync_data() {
        Err(error) if !has_no_sync(&error) => Err(error),
        _ => Ok(()),
    }
}

// Writes a line to standard error: what failed, and the system's words for why, without the number that std puts behind them.
pub fn say_failed<D: Display + Drop>(
    rt: &impl Eprint,
    what: D,
    error: io::Error,
) -> io::Result<()> {
    let text = InlineText::<128>::of(error);
    let said = text.as_str();
    let reason = match said.split_once(" (os error ") {
        Some((words, _)) => words,
        None => said,
    };
    eprintln!(rt; "{what}: {reason}")
}

#[cfg(test)]
mod tests {
    use super::*;

    // Gives one byte, and then an error.
    #[derive(Drop)]
    struct Broken {
        is_begun: bool,
    }

    impl Read for Broken {
        fn read(&mut self, buf: &mut [u8]) -> io::Result<usize> {
            if self.is_begun || buf.is_empty() {
                return Err(io::Error::from(ErrorKind::ConnectionReset));
            }
            self.is_begun = true;
            buf[0] = b'a';
            Ok(1)
        }
    }

    #[test]
    fn pieces_arrive_in_their_order(rt: HostRuntime) {
        let mut room = [b'.'; 6];
        let mut input = b"abc".as_slice().chain(b"de".as_slice());
        assert_eq!(rt; read_whole(&mut input, &mut room).ok(), Some(5));
        assert_eq!(rt; room, *b"abcde.");
        let mut longer = b"abc".as_slice().chain(b"defgh".as_slice());
        assert_eq!(rt; read_whole(&mut longer, &mut room).ok(), Some(6));
        assert_eq!(rt; room, *b"abcdef");
    }

    #[test]
    fn what_came_before_a_failed_read_is_no_input(rt: HostRuntime) {
        let mut room = [0; 4];
        let mut input = Broken { is_begun: false };
        assert_eq!(rt; read_whole(&mut input, &mut room).ok(), None);
        assert_eq!(rt; read_whole(&mut input, &mut []).ok(), Some(0));
    }
}
