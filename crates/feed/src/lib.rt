// The lines of a source, of any size, one at a time in a buffer of fixed size.
#![tactic(auto)]

ghost use Rattle.std.specs.Prelude.{IfOk, ◌≤◌, ◌+◌, length};
ghost use Rattle.feed.specs.declared.TheConstants.{CHUNK};

use std::io;
use std::io::Read;

// How many bytes are read from a source at a time.
pub const CHUNK: usize = 65536;

// A line of a source, without its line feed: the whole of it, or its start where it is longer than the buffer.
#[derive(Clone, Copy, Debug, PartialEq, Eq)]
pub enum Line<'a> {
    Whole(&'a [u8]),
    Start(&'a [u8]),
}

// A source, the chunk of it that was read last with the part that is not used yet, and the line of at most N bytes.
#[derive(Drop)]
pub struct Lines<'a, R, const N: usize> {
    source: &'a mut R,
    chunk: [u8; CHUNK],
    from: usize,
    to: usize,
    line: [u8; N],
    ghost used: { from ≤ to },
    ghost filled: { to ≤ CHUNK },
}

// Reads until the buffer is full or the source ends: how many bytes now stand at its start. `read_exact` takes a source that ends for an
// error, and how often there is to read is not known before.
pub fn read_full<R: Read>(source: &mut R, buffer: &mut [u8]) -> io::Result<usize>
    ensures { IfOk result (λ n. n ≤ length buffer.new) }
{
    let mut done = 0;
    while done < buffer.len() {
        match source.read(&mut buffer[done..])? {
            0 => break,
            more => done += more,
        }
    }
    Ok(done)
}

impl<'a, R: Read, const N: usize> Lines<'a, R, N> {
    // The lines of a source of which nothing is read yet.
    pub fn new(source: &'a mut R) -> Self {
        Lines {
            source,
            chunk: [0; CHUNK],
            from: 0,
            to: 0,
            line: [0; N],
        }
    }

    // Reads another chunk where the last is used up.
    fn fill(&mut self) -> io::Result<()> {
        if self.from == self.to {
            self.from = 0;
            self.to = 0;
            self.to = read_full(self.source, &mut self.chunk)?;
        }
        Ok(())
    }

    // The next byte of the source, if there is one.
    fn next_byte(&mut self) -> io::Result<Option<u8>> {
        self.fill()?;
        if self.from == self.to {
            return Ok(None);
        }
        let byte = self.chunk[self.from];
        self.from += 1;
        Ok(Some(byte))
    }

    // Keeps a byte of the line, if there is room for it.
    fn keep(&mut self, at: usize, byte: u8) {
        if at < N {
            self.line[at] = byte;
        }
    }

    // The line that has so many bytes.
    fn line_of(&self, count: usize) -> Line<'_> {
        match self.line.get(..count) {
            Some(whole) => Line::Whole(whole),
            None => Line::Start(&self.line),
        }
    }

    // The next line, if there is one. The loop counts the line's bytes, to a number that no source uses up.
    pub fn next_line(&mut self) -> io::Result<Option<Line<'_>>> {
        for count in 0..usize::MAX {
            match self.next_byte()? {
                None if count == 0 => return Ok(None),
                None | Some(b'\n') => return Ok(Some(self.line_of(count))),
                Some(byte) => self.keep(count, byte),
            }
        }
        Ok(None)
    }
}
