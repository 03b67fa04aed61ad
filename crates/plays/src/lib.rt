// Plays a whole script: every line of a source, over the two sides of a player.
#![tactic(auto)]

use arrayvec::ArrayString;
use console::BadLine;
use feed::{Line, Lines};
use script::{Player, Told};
use std::fmt::Write as _;
use std::io::{ErrorKind, Read, Write};
use std::{fmt, io};

// A longer line than this cannot be read; and the most that a line tells, which is the dump of a book.
pub const LINE: usize = 140000;

pub const OUTPUT: usize = 150000;

// How a script is told: aloud, all that its lines tell; or by its name, only which of its lines cannot be read.
#[derive(Clone, Copy, Debug, PartialEq, Eq)]
pub enum Telling<'a> {
    Aloud,
    ByName(&'a str),
}

// Plays a line: an empty one and a comment do nothing, and one that is longer than the buffer cannot be read.
pub fn play_line<'a>(player: &'a mut Player, line: Line<'a>) -> Result<Told<'a>, BadLine> {
    match line {
        Line::Whole([] | [b'#', ..]) => Ok(Told::Nothing),
        Line::Whole(line) => player.play(line),
        Line::Start(_) => Err(BadLine),
    }
}

// Composes what the line of a number told, or that it cannot be read.
fn compose(
    output: &mut ArrayString<OUTPUT>,
    telling: Telling,
    number: u64,
    told: Result<Told, BadLine>,
) -> fmt::Result {
    output.clear();
    match (told, telling) {
        (Ok(told), Telling::Aloud) => write!(output, "{told}"),
        (Ok(_), Telling::ByName(_)) => Ok(()),
        (Err(BadLine), Telling::Aloud) => writeln!(output, "bad line {number}"),
        (Err(BadLine), Telling::ByName(name)) => writeln!(output, "{name}: bad line {number}"),
    }
}

// Plays every line of a source: what a line tells is composed first, and written at once. The loop counts the lines, to a number that no
// script uses up.
pub fn play_all<R: Read, W: Write>(
    source: &mut R,
    writer: &mut W,
    telling: Telling,
    player: &mut Player,
) -> io::Result<()> {
    let mut lines: Lines<'_, R, LINE> = Lines::new(source);
    let mut output = ArrayString::new();
    for number in 1..=u64::MAX {
        let Some(line) = lines.next_line()? else {
            return Ok(());
        };
        let told = play_line(player, line);
        compose(&mut output, telling, number, told).map_err(|_| ErrorKind::WriteZero)?;
        writer.write_all(output.as_bytes())?;
    }
    Ok(())
}
