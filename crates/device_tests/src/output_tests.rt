//! The standard output, and outputs that take few bytes or none.

use heyvl_io::{Cut, Sink, StdoutSink, write_all};
use std::fmt::Display;
use std::io;

/// An output that takes at most `most` bytes at a time.
#[derive(Clone, Copy)]
struct Slow {
    most: usize,
}

impl Print for Slow {
    fn print<D: Display + Drop>(&self, _value: D) -> io::Result<()> {
        Ok(())
    }

    fn println<D: Display + Drop>(&self, _value: D) -> io::Result<()> {
        Ok(())
    }

    fn write_all(&self, _bytes: &[u8]) -> io::Result<()> {
        Ok(())
    }

    fn write_some(&self, bytes: &[u8]) -> io::Result<usize> {
        Ok(bytes.len().min(self.most))
    }
}

#[test]
fn a_piece_is_told_as_far_as_it_was_taken(rt: HostRuntime) {
    let mut sink = StdoutSink::new(Slow { most: 3 });
    assert!(rt; sink.write(b"hello\n") == Ok(3));
    assert!(rt; sink.write(b"he") == Ok(2));
    assert!(rt; write_all(&mut sink, b"hello, hello") == Ok(12));
    assert!(rt; sink.faults == 0);
}

#[test]
fn an_output_that_takes_no_byte_cuts_the_writing(rt: HostRuntime) {
    let mut sink = StdoutSink::new(Slow { most: 0 });
    assert!(rt; write_all(&mut sink, b"hello\n") == Err(Cut { written: 0 }));
    assert!(rt; sink.faults == 1);
}

#[test]
fn the_standard_output_is_written(rt: HostRuntime) {
    let mut sink = StdoutSink::new(rt);
    assert!(rt; write_all(&mut sink, b"hello\n") == Ok(6));
    assert!(rt; sink.faults == 0);
}
