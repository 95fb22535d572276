//! The readers and writers of std as sources and sinks. As ends they tell none of their bytes.
ghost use Rattle.std.specs.Prelude.{◌≡◌, ◌≤◌, None, length, take, IfOk, OnErr, OnOk};
ghost use Rattle.std.specs.Io.KnownBytes.{Appends, ReadConsumes};
ghost use Rattle.byte_ends.specs.Faults.{one_more};
ghost use Rattle.byte_ends.specs.Sink.{AnyBytes, TakesNothing, Takes};
ghost use Rattle.byte_ends.specs.Source.{ReadsInto};
ghost use Rattle.byte_ends.specs.Standard.{read_faults, reader_of, write_faults, writer_of};

use crate::ends::{Failed, Sink, Source};
use crate::settling::{flush_again, read_again, settled_read, settled_write, write_again};
use std::io;
use std::io::{Read, Write};

/// A reader of std as a source.
#[derive(Drop)]
pub struct StdSource<R: Read> {
    reader: R,
    faults: u64,
}

impl<R: Read> StdSource<R> {
    /// Reads from this reader.
    pub fn new(reader: R) -> StdSource<R>
        ensures faultless { read_faults result ≡ 0 }
        ensures over { reader_of result ≡ reader }
    {
        StdSource { reader, faults: 0 }
    }
}

impl<R: Read> Source for StdSource<R> {
    ghost use Rattle.std.specs.Prelude.{None};
    ghost use Rattle.byte_ends.specs.Standard.{read_faults};

    ghost left = { λ _. None };

    ghost faults = { read_faults };

    fn read(&mut self, buffer: &mut [u8]) -> Result<usize, Failed>
        ensures given { IfOk result (ReadsInto None None buffer.old buffer.new) }
        ensures failed { OnErr result (read_faults self.new ≡ one_more (read_faults self.old)) }
        ensures steady { OnOk result (read_faults self.new ≡ read_faults self.old) }
        ensures counted { read_faults self.old ≤ read_faults self.new }
        // Where the reader tells its bytes, it lost those that were given, and none by a failure.
        ensures passed { ReadConsumes (R.remaining (reader_of self.old))
            (R.remaining (reader_of self.new)) result buffer.new }
    {
        let answered = read_again(&mut self.reader, buffer);
        settled_read(answered, &mut self.faults)
    }
}

/// A writer of std as a sink. It hands on at each write what the writer holds back.
#[derive(Drop)]
pub struct StdSink<W: Write> {
    writer: W,
    faults: u64,
}

impl<W: Write> StdSink<W> {
    /// Writes to this writer.
    pub fn new(writer: W) -> StdSink<W>
        ensures faultless { write_faults result ≡ 0 }
        ensures over { writer_of result ≡ writer }
    {
        StdSink { writer, faults: 0 }
    }
}

impl<W: Write> Sink for StdSink<W> {
    ghost use Rattle.byte_ends.specs.Sink.{AnyBytes};
    ghost use Rattle.byte_ends.specs.Standard.{write_faults};

    ghost HasTaken = { λ _. AnyBytes };

    ghost faults = { write_faults };

    fn write(&mut self, piece: &[u8]) -> Result<usize, Failed>
        ensures took { IfOk result (Takes AnyBytes AnyBytes piece.now) }
        ensures nothing { OnErr result (TakesNothing AnyBytes AnyBytes) }
        ensures failed { OnErr result (write_faults self.new ≡ one_more (write_faults self.old)) }
        ensures steady { OnOk result (write_faults self.new ≡ write_faults self.old) }
        ensures counted { write_faults self.old ≤ write_faults self.new }
        // Where the writer tells its bytes, it gained those that were taken.
        ensures passed { IfOk result (λ count. Appends (W.contents (writer_of self.old))
            (W.contents (writer_of self.new)) (take count piece.now)) }
    {
        let answered = write_through(&mut self.writer, piece);
        settled_write(answered, piece, &mut self.faults)
    }
}

/// Writes some of a piece, and hands on what the writer holds back.
fn write_through<W: Write>(writer: &mut W, piece: &[u8]) -> io::Result<usize>
    ensures within { IfOk result (λ count. count ≤ length piece.now) }
    ensures passed { IfOk result (λ count.
        Appends (W.contents writer.old) (W.contents writer.new) (take count piece.now)) }
{
    let count = write_again(writer, piece)?;
    flush_again(writer)?;
    Ok(count)
}
