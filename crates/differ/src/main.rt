// Plays two scripts, and lists where the books that they leave differ: a line for each span, with its page, its line, its first and last
// character, and the two texts there.
#![tactic(auto)]

use arrayvec::ArrayString;
use plays::Telling;
use rules::Refusal;
use scenes::Side;
use script::Player;
use std::env::FillError;
use std::fmt::{InlineText, Write as _};
use std::fs::File;
use std::io::{ErrorKind, Read, Write};
use std::rt::{Env, Files};
use std::{fmt, io, str};

// The most that a line of output takes, and a script's name; and a list that has room for every span of a book, at four bytes each.
const OUTPUT: usize = 8192;

const NAME: usize = 4096;

const LIST: usize = 280000;

// Bytes between quotation marks, so that a blank at the end is seen: each is itself where it is printable, else its two hexadecimal digits.
#[derive(Clone, Copy, Debug, PartialEq, Eq)]
struct Quoted<'a>(&'a [u8]);

impl fmt::Display for Quoted<'_> {
    fn fmt<W: fmt::Write>(&self, f: &mut fmt::Formatter<W>) -> fmt::Result {
        f.write_str("\"")?;
        for run in self.0.chunk_by(are_alike) {
            match run {
                [first, ..] if characters::is_printable(*first) => {
                    f.write_str(str::from_utf8(run).map_err(|_| fmt::Error)?)?
                }
                _ => f.write(Escaped(run))?,
            }
        }
        f.write_str("\"")
    }
}

// Whether both bytes are printable, or neither is.
fn are_alike(x: &u8, y: &u8) -> bool {
    characters::is_printable(*x) == characters::is_printable(*y)
}

// Bytes that are written as `\x` and two hexadecimal digits each.
#[derive(Clone, Copy)]
struct Escaped<'a>(&'a [u8]);

// How many are written at a time.
const PART: usize = 64;

impl fmt::Display for Escaped<'_> {
    fn fmt<W: fmt::Write>(&self, f: &mut fmt::Formatter<W>) -> fmt::Result {
        for part in self.0.chunks(PART) {
            let mut escapes = [[0; 4]; PART];
            for (escape, byte) in escapes.iter_mut().zip(part) {
                let [high, low] = console::digits_of(*byte);
                *escape = [b'\\', b'x', high, low];
            }
            let written = escapes[..part.len().min(PART)].as_flattened();
            f.write_str(str::from_utf8(written).map_err(|_| fmt::Error)?)?;
        }
        Ok(())
    }
}

// Where two books differ: characters of a line from the first to the last.
#[derive(Clone, Copy, Debug, PartialEq, Eq)]
struct Span {
    page: u8,
    line: u8,
    first: u8,
    last: u8,
}

impl From<[u8; 4]> for Span {
    fn from([page, line, first, last]: [u8; 4]) -> Span {
        Span {
            page,
            line,
            first,
            last,
        }
    }
}

impl fmt::Display for Span {
    fn fmt<W: fmt::Write>(&self, f: &mut fmt::Formatter<W>) -> fmt::Result {
        let Span {
            page,
            line,
            first,
            last,
        } = *self;
        write!(f, "page {page} line {line} characters {first} to {last}")
    }
}

impl Span {
    // The characters of a line that are in the span, as far as the line goes.
    fn of(self, line: &[u8]) -> &[u8] {
        let to = line.len().min(usize::from(self.last));
        let from = to.min(usize::from(self.first).saturating_sub(1));
        &line[from..to]
    }
}

// What a book shows at a span: its text; a marker where the line is empty, and words where it shows nothing there.
#[derive(Clone, Copy)]
struct Part<'a> {
    side: &'a Side,
    span: Span,
}

impl fmt::Display for Part<'_> {
    fn fmt<W: fmt::Write>(&self, f: &mut fmt::Formatter<W>) -> fmt::Result {
        let span = self.span;
        let (page, line) = (usize::from(span.page), usize::from(span.line));
        match self.side.view(page, line, b"") {
            Err(_) => write!(f, "(not shown)"),
            Ok([]) => write!(f, "(blank)"),
            Ok(stored) => match span.of(stored) {
                [] => write!(f, "(nothing)"),
                part => f.write(Quoted(part)),
            },
        }
    }
}

// Writes a span, and what both books show there: composed in a lent text first, which is cleared and not made anew for each.
fn write_span<W: Write>(
    writer: &mut W,
    output: &mut ArrayString<OUTPUT>,
    span: Span,
    before: &Side,
    after: &Side,
) -> io::Result<()> {
    let here = Part { side: before, span };
    let there = Part { side: after, span };
    output.clear();
    writeln!(output, "{span}: {here} | {there}").map_err(|_| ErrorKind::WriteZero)?;
    writer.write_all(output.as_bytes())
}

// Writes why the books are not compared.
fn write_refused<W: Write>(writer: &mut W, refusal: Refusal) -> io::Result<()> {
    let number = refusal.number();
    let reason = match refusal {
        Refusal::NotOpen => ": a record is not open",
        Refusal::BadBook => ": a record or a book breaks the rules",
        Refusal::OutputTooShort => ": more spans than there is room for",
        _ => "",
    };
    let mut output = io::Cursor::new([0; OUTPUT]);
    writeln!(output, "refused {number}{reason}")?;
    writer.write_all(console::written(&output))
}

// Compares two sides, and writes every span.
fn compare<W: Write>(writer: &mut W, before: &Side, after: &Side) -> io::Result<()> {
    let mut list = [0; LIST];
    let count = match script::list_differences(before, after, &mut list) {
        Ok(0) => return writer.write_all(b"nothing differs\n"),
        Ok(count) => count,
        Err(refusal) => return write_refused(writer, refusal),
    };
    let mut output = ArrayString::new();
    let (spans, _) = list.as_chunks::<4>();
    for span in spans.iter().take(count) {
        write_span(writer, &mut output, Span::from(*span), before, after)?;
    }
    Ok(())
}

// Says which script cannot be read, and why, without the number that the system's error has in parentheses.
fn write_unread<E: Write>(complaints: &mut E, name: &[u8], error: io::Error) -> io::Result<()> {
    let text: InlineText<512> = InlineText::of(error);
    let text = text.as_str();
    let words = text.split_once(" (").map_or(text, |(words, _)| words);
    let mut output = io::Cursor::new([0; OUTPUT]);
    output.write_all(name)?;
    writeln!(output, ": {words}")?;
    complaints.write_all(console::written(&output))
}

// Opens a file that can be read: a folder can be opened and not read.
fn open_readable<R: Files>(rt: &R, path: &str) -> io::Result<R::File> {
    let mut source = File::open(rt, path)?;
    source.read(&mut [])?;
    Ok(source)
}

// Plays a script by its name, in silence but for lines that cannot be read: the first side that it leaves; none where it cannot be read.
// The library takes a name as text alone: of any other bytes it says what the system does.
fn play_named<R: Files, W: Write, E: Write>(
    rt: &R,
    writer: &mut W,
    complaints: &mut E,
    name: &[u8],
) -> io::Result<Option<Side>> {
    let opened = match str::from_utf8(name) {
        Ok(path) => open_readable(rt, path).map(|source| (source, path)),
        Err(_) => Err(io::Error::from_raw_os_error(84)),
    };
    match opened {
        Ok((mut source, path)) => {
            let mut player = Player::new();
            plays::play_all(&mut source, writer, Telling::ByName(path), &mut player)?;
            Ok(Some(*player.stage.first()))
        }
        Err(error) => {
            write_unread(complaints, name, error)?;
            Ok(None)
        }
    }
}

// Whether the program was started with an argument of a number; that of its own name is 0.
fn is_given<R: Env>(rt: &R, argument: usize) -> bool {
    !matches!(rt.arg(argument, &mut []), Err(FillError::NotPresent))
}

// Plays the script that an argument names. A name that does not fit is none.
fn play_script<R: Files + Env, W: Write, E: Write>(
    rt: &R,
    writer: &mut W,
    complaints: &mut E,
    argument: usize,
) -> io::Result<Option<Side>> {
    let mut name = [0; NAME];
    let size = rt.arg(argument, &mut name).unwrap_or(0);
    play_named(rt, writer, complaints, &name[..size])
}

fn main(rt: HostRuntime) -> io::Result<()> {
    let mut writer = rt.stdout();
    let mut complaints = rt.stderr();
    if !is_given(&rt, 2) || is_given(&rt, 3) {
        return complaints.write_all(
            b"usage: differ BEFORE AFTER, two scripts as replay plays them\n",
        );
    }
    let Some(before) = play_script(&rt, &mut writer, &mut complaints, 1)? else {
        return Ok(());
    };
    let Some(after) = play_script(&rt, &mut writer, &mut complaints, 2)? else {
        return Ok(());
    };
    compare(&mut writer, &before, &after)
}
