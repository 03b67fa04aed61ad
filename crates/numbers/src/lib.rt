// What a call hands back in plain numbers, for a caller that can be handed no enum: the C interface.
#![tactic(auto)]

ghost use Rattle.std.specs.Prelude.{◌≡◌, ℕ};
ghost use Rattle.rules.specs.declared.Position.{Position};
ghost use Rattle.rules.specs.Step.{Ending, event_number, ending_as, status_as};
ghost use Rattle.numbers.specs.Numbers.{number_or_none, Says, result_of, InNumbersBy};

use rules::{Ending, Event, Given, Position, Reply, Status};

// What a call hands back beside the record, document 01's "result": its number and stop; what it gives, 0 for nothing, 1 for a
// character, 2 for an integer, and its value, 0 for nothing; the event that a refusal ended in, 0 for none; the events signalled, the
// answers taken, the count of characters delivered, and the logical end; and where that event was signalled. With no event this is
// only where the record is left, and tells nothing more.
#[repr(C)]
#[derive(Clone, Copy)]
pub struct CallResult {
    pub number: u8,
    pub stop: u8,
    pub given: u8,
    pub event: u8,
    pub value: i32,
    pub events: usize,
    pub taken: usize,
    pub count: usize,
    pub end: Position,
    pub signalled: Position,
}

// An event, or none, as it is told by its number.
pub trait EventOrNone {
    ghost number: { Self → ℕ };

    fn number(self) -> u8
        ensures { result ≡ number self };
}

impl EventOrNone for Event {
    ghost number = { event_number };

    fn number(self) -> u8 {
        match self {
            Event::LogicalEnd => 1,
            Event::PhysicalEnd => 2,
            Event::PageEnd => 3,
            Event::LineEnd => 4,
            Event::Character => 5,
            Event::Value => 6,
        }
    }
}

impl EventOrNone for Option<Event> {
    ghost number = { number_or_none };

    fn number(self) -> u8 {
        match self {
            None => 0,
            Some(event) => event.number(),
        }
    }
}

// The number of an event, 0 where none is told.
pub fn event_number<E: EventOrNone>(event: E) -> u8
    ensures { result ≡ E.number event }
{
    event.number()
}

// How a call ended, by its case or in numbers: what it means, and a status that says it.
pub trait TellsEnding: Copy {
    // With the record left at a position.
    ghost means: { Self → Position → Ending };

    fn status(self) -> Status
        ensures { Says result (means self) };
}

impl TellsEnding for Status {
    ghost means = { status_as };

    fn status(self) -> Status {
        self
    }
}

impl TellsEnding for Ending {
    ghost means = { ending_as };

    fn status(self) -> Status {
        match self {
            Ending::Refused(refusal) => Status::new(refusal.number(), 0, None),
            Ending::RefusedAt(event, refusal) => Status::new(refusal.number(), 0, Some(event)),
            Ending::Stopped(stop) => Status::new(0, stop.number(), None),
        }
    }
}

// A reply in numbers, with its number, stop and event, and what it gives.
pub fn result_of<H: Drop>(
    reply: Reply<H>,
    number: u8,
    stop: u8,
    event: u8,
    given: u8,
    value: i32,
) -> CallResult
    ensures { result ≡ result_of reply number stop event given value }
{
    CallResult {
        number,
        stop,
        given,
        event,
        value,
        events: reply.events,
        taken: reply.taken,
        count: reply.count,
        end: reply.end,
        signalled: reply.file.position,
    }
}

// A reply in numbers. It is part of each caller, so that no reply is copied.
#[inline(always)]
pub fn in_numbers<H: TellsEnding>(reply: Reply<H>) -> CallResult
    ensures { InNumbersBy H.means reply reply.file result }
{
    match reply.given {
        Ok(Given::Nothing) => result_of(reply, 0, 0, 0, 0, 0),
        Ok(Given::Character(b)) => result_of(reply, 0, 0, 0, 1, i32::from(b)),
        Ok(Given::Integer(v)) => result_of(reply, 0, 0, 0, 2, v),
        Err(ending) => {
            let status = ending.status();
            let told = event_number(status.event);
            result_of(reply, status.number, status.stop, told, 0, 0)
        }
    }
}
