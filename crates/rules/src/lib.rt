// What a reader must believe: the types of the core, all by value, and in specs/ what every step and call of document 01 means.
// The table of its examples stands in proofs/.
#![tactic(auto)]

ghost use Rattle.std.specs.Prelude.{◌≡◌};
ghost use Rattle.rules.specs.Step.{refusal_number, stop_number, status_of};

// A position: page, line and character, each counted from 1.
#[repr(C)]
#[derive(Clone, Copy, PartialEq, Eq, PartialOrd, Ord)]
pub struct Position {
    pub page: usize,
    pub line: usize,
    pub character: usize,
}

// The established shape of a book: pages, lines of a page, characters of a line (document 01's P, L and C).
#[repr(C)]
#[derive(Clone, Copy)]
pub struct Shape {
    pub pages: usize,
    pub lines: usize,
    pub characters: usize,
}

// The five rights of a channel.
#[repr(C)]
#[derive(Clone, Copy)]
pub struct Rights {
    pub get: bool,
    pub put: bool,
    pub set: bool,
    pub reset: bool,
    pub compress: bool,
}

// The file record. `reading` is document 01's read mood, `writing` its write mood. `split` is the choice of document 02's C-14: whether a
// string that does not fit on its line is split there, as the Report has it, or refused. The flags stand together at its end, so that the
// numbers before them are copied as whole words.
#[repr(C)]
#[derive(Clone, Copy)]
pub struct File {
    pub position: Position,
    pub shape: Shape,
    pub opened: bool,
    pub reading: bool,
    pub writing: bool,
    pub split: bool,
    pub rights: Rights,
}

// A running call: the record, the book's logical end, the events signalled and the answers taken so far.
#[derive(Clone, Copy)]
pub struct Run {
    pub file: File,
    pub end: Position,
    pub events: usize,
    pub taken: usize,
}

// The six events. `event_number` and `told_by` of specs/ tell the number and the name of each case.
#[derive(Clone, Copy)]
pub enum Event {
    LogicalEnd,
    PhysicalEnd,
    PageEnd,
    LineEnd,
    Character,
    Value,
}

// What a true answer does. `mending_as` of specs/ tells the case of document 01.
#[derive(Clone, Copy)]
pub enum Mending {
    Nothing,
    Newline,
    Newpage,
    SetTo(Position),
    Backspace,
    Reset,
    Suggest(usize),
}

// An answer: false, so that the default follows; the program jumped away; or true.
#[derive(Clone, Copy)]
pub enum Answer {
    Default,
    Jump,
    Mend(Mending),
}

// Why a call is refused, with the number that document 01 gives each case.
#[derive(Clone, Copy)]
pub enum Refusal {
    NotOpen = 1,
    BadAnswers = 2,
    BadBook = 3,
    RightMissing = 4,
    MoodMissing = 5,
    OutOfRange = 6,
    BadCharacter = 8,
    TooLarge = 9,
    LineTooShort = 10,
    ProgramJumped = 11,
    OutputTooShort = 12,
    LogicalEndMet = 14,
    PhysicalEndMet = 15,
    StringDoesNotFit = 16,
}

impl Refusal {
    // Its number: `as` reads the one that stands at its case.
    pub fn number(self) -> u8
        ensures { result ≡ refusal_number self }
    {
        self as u8
    }
}

// Why a string that is got stopped, with the number that document 01 gives each case.
#[derive(Clone, Copy)]
pub enum Stop {
    Terminator = 1,
    LineOver = 2,
    EndReached = 3,
    OutputFull = 4,
}

impl Stop {
    // Its number: `as` reads the one that stands at its case.
    pub fn number(self) -> u8
        ensures { result ≡ stop_number self }
    {
        self as u8
    }
}

// How a step ends the call: by a refusal, by one that an event ends in, or by the stop of a string.
#[derive(Clone, Copy)]
pub enum Ending {
    Refused(Refusal),
    RefusedAt(Event, Refusal),
    Stopped(Stop),
}

// How a step left the call, in numbers, any of them: the number of a refusal, the stop of a string, 0 for neither, and the event that a
// refusal ended in. The core tells an ending by its case; a caller with numbers of its own tells it so.
#[derive(Clone, Copy)]
pub struct Status {
    pub number: u8,
    pub stop: u8,
    pub event: Option<Event>,
}

impl Status {
    pub fn new(number: u8, stop: u8, event: Option<Event>) -> Status
        ensures { result ≡ status_of number stop event }
    {
        Status {
            number: number,
            stop: stop,
            event: event,
        }
    }
}

// A call that a step ended: the running call as it is left, and how, by case or in numbers. The event of a refusal was signalled at the
// position where the record is left.
#[derive(Clone, Copy)]
pub struct EndedCall<H = Ending> {
    pub run: Run,
    pub ending: H,
}

// The running call after a step that is done, or the call that the step ended.
pub type Outcome = Result<Run, EndedCall>;

// The running call after a step that gives a value, and the value.
#[derive(Clone, Copy)]
pub struct Taken<T> {
    pub run: Run,
    pub value: T,
}

// What a call that is done gives: a character, an integer, or nothing.
#[derive(Clone, Copy)]
pub enum Given {
    Nothing,
    Character(u8),
    Integer(i32),
}

// All that a call hands back by value: the record, the logical end, the events signalled, the answers taken, the count
// of characters delivered, and what is given, or how the call ended.
#[derive(Clone, Copy)]
pub struct Reply<H = Ending> {
    pub file: File,
    pub end: Position,
    pub events: usize,
    pub taken: usize,
    pub count: usize,
    pub given: Result<Given, H>,
}
