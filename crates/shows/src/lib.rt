// The line that a call writes.
#![tactic(auto)]

ghost use Rattle.std.specs.Prelude.{◌≡◌};
ghost use Rattle.shows.specs.Lines.{refusal_of, quiet_reply};

use console::Hex;
use rules::{Ending, Event, File, Given, Position, Refusal, Reply};
use std::fmt;

// Why a call is refused; none where it is done or stopped.
pub fn refusal_of(given: Result<Given, Ending>) -> Option<Refusal>
    ensures { result ≡ refusal_of given }
{
    match given {
        Err(Ending::Refused(refusal) | Ending::RefusedAt(_, refusal)) => Some(refusal),
        Ok(_) | Err(Ending::Stopped(_)) => None,
    }
}

// The reply of a call that signals nothing and leaves the record: a view, whole, or a comparison. It counts, or is refused.
pub fn quiet_reply(file: File, end: Position, counted: Result<usize, Refusal>) -> Reply
    ensures { result ≡ quiet_reply file end counted }
{
    let (count, given) = match counted {
        Ok(count) => (count, Ok(Given::Nothing)),
        Err(refusal) => (0, Err(Ending::Refused(refusal))),
    };
    Reply {
        file,
        end,
        events: 0,
        taken: 0,
        count,
        given,
    }
}

// The three numbers of a position.
#[derive(Clone, Copy)]
pub struct Place(pub Position);

impl fmt::Display for Place {
    fn fmt<W: fmt::Write>(&self, f: &mut fmt::Formatter<W>) -> fmt::Result {
        let Position {
            page,
            line,
            character,
        } = self.0;
        write!(f, "{page} {line} {character}")
    }
}

// The character or the integer that a call gives; "-" for none.
#[derive(Clone, Copy)]
struct Value(Result<Given, Ending>);

impl fmt::Display for Value {
    fn fmt<W: fmt::Write>(&self, f: &mut fmt::Formatter<W>) -> fmt::Result {
        match self.0 {
            Ok(Given::Nothing) | Err(_) => write!(f, "-"),
            Ok(Given::Character(byte)) => write!(f, "{byte}"),
            Ok(Given::Integer(value)) => write!(f, "{value}"),
        }
    }
}

// The record's flags, position and choice, and after a bar the logical end.
#[derive(Clone, Copy)]
struct Record {
    file: File,
    end: Position,
}

impl fmt::Display for Record {
    fn fmt<W: fmt::Write>(&self, f: &mut fmt::Formatter<W>) -> fmt::Result {
        let file = self.file;
        let opened = u8::from(file.opened);
        let reading = u8::from(file.reading);
        let writing = u8::from(file.writing);
        let split = u8::from(file.split);
        let position = Place(file.position);
        let end = Place(self.end);
        write!(f, "{opened} {reading} {writing} {position} {split} | {end}")
    }
}

// The event that a refusal ended in, and the position at which it was signalled; "-" for none.
#[derive(Clone, Copy)]
struct Signal {
    given: Result<Given, Ending>,
    at: Place,
}

impl fmt::Display for Signal {
    fn fmt<W: fmt::Write>(&self, f: &mut fmt::Formatter<W>) -> fmt::Result {
        let Err(Ending::RefusedAt(event, _)) = self.given else {
            return write!(f, "-");
        };
        let name = match event {
            Event::LogicalEnd => "logical",
            Event::PhysicalEnd => "physical",
            Event::PageEnd => "page",
            Event::LineEnd => "line",
            Event::Character => "character",
            Event::Value => "value",
        };
        let at = self.at;
        write!(f, "{name} {at}")
    }
}

// A call's whole line: its name, what it handed back, and the bytes that it shows. An event was signalled where the record is left.
#[derive(Clone, Copy)]
pub struct CallLine<'a> {
    pub name: &'a str,
    pub reply: Reply,
    pub bytes: &'a [u8],
}

impl fmt::Display for CallLine<'_> {
    fn fmt<W: fmt::Write>(&self, f: &mut fmt::Formatter<W>) -> fmt::Result {
        let Reply {
            file,
            end,
            events,
            taken,
            count,
            given,
        } = self.reply;
        let number = refusal_of(given).map_or(0, |refusal| refusal.number());
        let stop = match given {
            Err(Ending::Stopped(stop)) => stop.number(),
            _ => 0,
        };
        let name = self.name;
        let value = Value(given);
        let bytes = Hex(self.bytes);
        let record = Record { file, end };
        let at = Place(file.position);
        let signal = Signal { given, at };
        write!(f, "{name} {number} {events} {taken} {stop} {count} ")?;
        writeln!(f, "{value} {bytes} | {record} | {signal}")
    }
}
