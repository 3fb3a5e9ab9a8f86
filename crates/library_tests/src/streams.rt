//! Readers and writers that are interrupted.

use cap_log::{PullFault, PushFault, ReadSource, Sink, Source, WriteSink};
use std::io;
use std::io::{Read, Write};

// It is interrupted before each byte that it gives or takes.
#[derive(Drop)]
struct Interrupted {
    byte: u8,
    is_next: bool,
}

impl Interrupted {
    // Whether the call is the one that is interrupted.
    fn turn(&mut self) -> io::Result<()> {
        self.is_next = !self.is_next;
        if self.is_next {
            Err(io::Error::from(io::ErrorKind::Interrupted))
        } else {
            Ok(())
        }
    }
}

impl Read for Interrupted {
    fn read(&mut self, buffer: &mut [u8]) -> io::Result<usize> {
        self.turn()?;
        match buffer.first_mut() {
            Some(byte) => {
                *byte = self.byte;
                Ok(1)
            }
            None => Ok(0),
        }
    }
}

impl Write for Interrupted {
    fn write(&mut self, bytes: &[u8]) -> io::Result<usize> {
        self.turn()?;
        match bytes.first() {
            Some(byte) => {
                self.byte = *byte;
                Ok(1)
            }
            None => Ok(0),
        }
    }

    fn flush(&mut self) -> io::Result<()> {
        Ok(())
    }
}

#[test]
fn a_reader_that_is_interrupted(rt: HostRuntime) {
    let mut source = ReadSource::new(Interrupted {
        byte: b'a',
        is_next: false,
    });
    let mut piece = [0u8; 4];
    for answer in [Err(PullFault), Ok(1), Err(PullFault), Ok(1)] {
        assert_eq!(rt; source.pull(&mut piece), answer);
    }
    assert_eq!(rt; piece, *b"a\0\0\0");
}

#[test]
fn a_writer_that_is_interrupted(rt: HostRuntime) {
    let mut writer = Interrupted {
        byte: 0,
        is_next: false,
    };
    let mut sink = WriteSink::new(&mut writer);
    for answer in [Err(PushFault), Ok(1), Err(PushFault), Ok(1)] {
        assert_eq!(rt; sink.push(b"ab"), answer);
    }
    assert_eq!(rt; writer.byte, b'a');
}
