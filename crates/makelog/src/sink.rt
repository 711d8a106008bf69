// The log, written out a buffer at a time.
use crate::order::{Order, read_order};
use event_log::Event;
use lines::{Lines, Mistake};
use refusal::Refusal;
use std::fs::File;
use std::io::{Error, ErrorKind, Write};

#[derive(Clone, Copy, PartialEq, Eq, Debug)]
pub enum WriteError {
    // It is a pipe that nobody reads.
    Unread,
    Failed,
}

impl From<Error> for WriteError {
    fn from(error: Error) -> WriteError {
        if error.kind() == ErrorKind::BrokenPipe {
            return WriteError::Unread;
        }
        WriteError::Failed
    }
}

impl From<Mistake> for WriteError {
    fn from(_mistake: Mistake) -> WriteError {
        WriteError::Failed
    }
}

impl From<Refusal> for WriteError {
    fn from(_refusal: Refusal) -> WriteError {
        WriteError::Failed
    }
}

// The buffer begins with the head. written bytes of it are the log that the writer sees, and those before
// fresh are in the file already. records went out or will. The lengths stand beside the buffer since
// `write_record`, which is C's too, takes them so, and there is no heap for a Vec.
#[derive(Drop)]
struct Sink<'a> {
    file: &'a mut File,
    buffer: &'a mut [u8; 65536],
    written: usize,
    fresh: usize,
    records: u64,
}

impl<'a> Sink<'a> {
    fn begin(file: &'a mut File, buffer: &'a mut [u8; 65536]) -> Result<Sink<'a>, WriteError> {
        let written = event_log::write_head(buffer)?;
        Ok(Sink {
            file,
            buffer,
            written,
            fresh: 0,
            records: 0,
        })
    }

    // Keeps the head and the last record, so that the next one has its number.
    fn keep_last(&mut self) {
        let written = self.written;
        let mut kept = 5;
        if (written >= 13) & (written <= 65536) {
            self.buffer.copy_within(written - 8..written, 5);
            kept = 13;
        }
        self.written = kept;
        self.fresh = kept;
    }

    // What is fresh goes out.
    fn flush(&mut self) -> Result<(), WriteError> {
        let Some(fresh) = self.buffer.get(self.fresh..self.written) else {
            return Err(WriteError::Failed);
        };
        self.file.write_all(fresh)?;
        self.keep_last();
        Ok(())
    }

    // One record, behind what is there. There is room for it, or it fails.
    fn append(&mut self, event: Event) -> Result<(), WriteError> {
        let written = self.written;
        let longer = event_log::write_record(self.buffer, written, event)?;
        self.written = longer;
        Ok(())
    }

    fn write(&mut self, event: Event, times: u32) -> Result<(), WriteError> {
        for _ in 0..times {
            if self.written >= 65528 {
                self.flush()?;
            }
            self.append(event)?;
            self.records = self.records.wrapping_add(1);
        }
        Ok(())
    }

    // Numbers have 16 bits: 65,536 records that are dropped leave no trace.
    fn drop_records(&mut self, times: u32) -> Result<(), WriteError> {
        self.flush()?;
        for _ in 0..times % 65536 {
            self.append(Event::Pause)?;
            self.keep_last();
        }
        Ok(())
    }

    // The last record once more: it stands at 5, behind the head. Where the flush fails, one write is tried all
    // the same, and the later error is the answer.
    fn repeat(&mut self, times: u32) -> Result<(), WriteError> {
        let flushed = self.flush();
        for _ in 0..times {
            let buffer = &self.buffer[..];
            self.file.write_all(&buffer[5..13])?;
            flushed?;
            self.records = self.records.wrapping_add(1);
        }
        flushed
    }

    fn obey(&mut self, order: Order) -> Result<(), WriteError> {
        match order {
            Order::Nothing => Ok(()),
            Order::Write(event, times) => self.write(event, times),
            Order::Drop(n) => self.drop_records(n),
            Order::Repeat(n) => self.repeat(n),
        }
    }
}

// Writes the log of a script that was judged right, and returns how many records it has.
pub fn write_log(file: &mut File, text: &[u8]) -> Result<u64, WriteError> {
    let mut buffer = io::large_buffer();
    let mut sink = Sink::begin(file, &mut buffer)?;
    for line in Lines::of(text) {
        sink.obey(read_order(line)?)?;
    }
    sink.flush()?;
    Ok(sink.records)
}
