// Puts lines into a book of 2 pages of 3 lines of 8 characters, and shows what stands in it. `S text` puts a text, `N` is newline,
// `G` newpage.
#![tactic(auto)]

use arrayvec::ArrayString;
use feed::{Line, Lines};
use places::BookMut;
use rules::{Refusal, Reply};
use scenes::{Lent, Side};
use shows::Place;
use std::fmt::Write as _;
use std::io;
use std::io::{ErrorKind, Read, Write};

// Much more than a put of a text has room for; and more than the whole book takes when it is shown.
const LINE: usize = 4096;

const OUTPUT: usize = 4096;

// A refusal's line takes 12 bytes at most; no more are set to zero for each.
const REFUSED: usize = 12;

// One line of the input.
fn play(line: &[u8], lent: Lent) -> Reply {
    let Lent {
        file,
        end,
        text,
        lines,
        pages,
        row,
    } = lent;
    let book = &mut BookMut { text, lines, pages };
    match line {
        [b'S', b' ', put @ ..] => puts::put_string(file, end, put, book, row),
        b"N" => layout::newline(file, end, book, row),
        b"G" => layout::newpage(file, end, book, row),
        _ => entry::refuse(entry::start(file, end), Refusal::OutOfRange),
    }
}

// Says that a call was refused, and its number.
fn write_refused<W: Write>(writer: &mut W, refusal: Refusal) -> io::Result<()> {
    let number = refusal.number();
    let mut output: ArrayString<REFUSED> = ArrayString::new();
    writeln!(output, "refused {number}").map_err(|_| ErrorKind::WriteZero)?;
    writer.write_all(output.as_bytes())
}

// Shows a line, if it is shown: page, line, how many characters, and the characters or the marker.
fn write_line<W: Write>(writer: &mut W, side: &Side, page: usize, line: usize) -> io::Result<()> {
    let Ok(stored) = side.view(page, line, b"") else {
        return Ok(());
    };
    let count = stored.len();
    write!(writer, "{page} {line} {count} ")?;
    writer.write_all(side.line_view(page, line, b"(blank)"))?;
    writeln!(writer)
}

// Shows the shown lines of a page.
fn write_page<W: Write>(writer: &mut W, side: &Side, page: usize) -> io::Result<()> {
    for line in 1..=side.file.shape.lines {
        write_line(writer, side, page, line)?;
    }
    Ok(())
}

// Shows every shown line, and the logical end.
fn write_book<W: Write>(writer: &mut W, side: &Side) -> io::Result<()> {
    let mut output = io::Cursor::new([0; OUTPUT]);
    for page in 1..=side.file.shape.pages {
        write_page(&mut output, side, page)?;
    }
    let end = Place(side.end);
    writeln!(output, "end {end}")?;
    writer.write_all(console::written(&output))
}

// Leaves the record and the logical end as a call did.
fn leave(side: &mut Side, reply: Reply) {
    side.file = reply.file;
    side.end = reply.end;
}

// Plays the whole input. A longer line than the buffer is cut: its put is refused before the cut. The loop takes a number of turns
// that no input uses up.
fn play_all<R: Read, W: Write>(source: &mut R, writer: &mut W, side: &mut Side) -> io::Result<()> {
    let mut lines: Lines<'_, R, LINE> = Lines::new(source);
    for _ in 0..u64::MAX {
        let Some(Line::Whole(line) | Line::Start(line)) = lines.next_line()? else {
            return Ok(());
        };
        let reply = play(line, side.lent(&[]));
        leave(side, reply);
        if let Some(refusal) = shows::refusal_of(reply.given) {
            write_refused(writer, refusal)?;
        }
    }
    Ok(())
}

fn main(rt: HostRuntime) -> io::Result<()> {
    let mut writer = rt.stdout();
    let mut side = Side::new();
    let Lent {
        file,
        end,
        text,
        lines,
        pages,
        ..
    } = side.lent(&[]);
    let established = plain::establish(file, end, text, lines, pages);
    leave(&mut side, established);
    play_all(&mut rt.stdin(), &mut writer, &mut side)?;
    write_book(&mut writer, &side)
}
