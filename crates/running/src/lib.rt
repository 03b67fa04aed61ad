// Changes of the running call, the endings of a step, and the words of an answer row. Nothing here signals an event.
#![tactic(auto)]

ghost use Rattle.std.specs.Prelude.{◌≡◌, ◌&&◌, ◌<◌, ◌^◌, Bool, false, None};
ghost use Rattle.rules.specs.declared.Ending.TheVariants.{Refused, RefusedAt, Stopped};
ghost use Rattle.rules.specs.Book.{place, moved_to, both_moved_to, in_mood, next_word, signalled_by, kind_of, page_of, line_of, character_of, place_of, mending_of, answer_of, suggested};
ghost use Rattle.rules.specs.Step.{event_as, mending_as, answer_as, refusal_number, going, status_of, ended_with};
ghost use Rattle.rules.specs.Steps.{file_end, file_end_number};
ghost use Rattle.running.specs.Outcomes.{backspaced_by, reset_by};

use rules::{
    Answer, EndedCall, Ending, Event, Mending, Outcome, Position, Refusal, Run, Status, Stop,
};

// The running call with its position moved.
pub fn moved(run: Run, page: usize, line: usize, character: usize) -> Run
    ensures { result ≡ moved_to run (place page line character) }
{
    let mut r = run;
    r.file.position.page = page;
    r.file.position.line = line;
    r.file.position.character = character;
    r
}

// The running call with its position and its logical end moved.
pub fn both_moved(run: Run, page: usize, line: usize, character: usize) -> Run
    ensures { result ≡ both_moved_to run (place page line character) }
{
    let mut r = run;
    r.file.position.page = page;
    r.file.position.line = line;
    r.file.position.character = character;
    r.end.page = page;
    r.end.line = line;
    r.end.character = character;
    r
}

// The running call with the mood of the call on, and the other off.
pub fn in_mood(run: Run, reading: bool) -> Run
    ensures { result ≡ in_mood run reading }
{
    let mut r = run;
    let writing = !reading;
    r.file.reading = reading;
    r.file.writing = writing;
    r
}

// A refusal as a caller tells it: by its case, or by a number, any of them; how the call is then ended, and what event goes with it.
pub trait TellsRefusal {
    type Event;

    type Ending;

    ghost refused: { Self → Self.Ending };

    ghost refused_at: { Self → Self.Event → Self.Ending };

    fn refused(self) -> Self::Ending
        ensures { result ≡ refused self };

    fn refused_at(self, event: Self::Event) -> Self::Ending
        ensures { result ≡ refused_at self event };
}

impl TellsRefusal for Refusal {
    type Event = Event;

    type Ending = Ending;

    ghost refused = { Refused };

    ghost refused_at = { λ refusal event. RefusedAt event refusal };

    fn refused(self) -> Ending {
        Ending::Refused(self)
    }

    fn refused_at(self, event: Event) -> Ending {
        Ending::RefusedAt(event, self)
    }
}

impl TellsRefusal for u8 {
    type Event = Option<Event>;

    type Ending = Status;

    ghost refused = { λ number. status_of number 0 None };

    ghost refused_at = { λ number event. status_of number 0 event };

    fn refused(self) -> Status {
        Status::new(self, 0, None)
    }

    fn refused_at(self, event: Option<Event>) -> Status {
        Status::new(self, 0, event)
    }
}

// The stop of a string, told alike.
pub trait TellsStop {
    type Ending;

    ghost stopped: { Self → Self.Ending };

    fn stopped(self) -> Self::Ending
        ensures { result ≡ stopped self };
}

impl TellsStop for Stop {
    type Ending = Ending;

    ghost stopped = { Stopped };

    fn stopped(self) -> Ending {
        Ending::Stopped(self)
    }
}

impl TellsStop for u8 {
    type Ending = Status;

    ghost stopped = { λ stop. status_of 0 stop None };

    fn stopped(self) -> Status {
        Status::new(0, self, None)
    }
}

// A call that is refused.
pub fn refused<R: TellsRefusal>(run: Run, refusal: R) -> EndedCall<R::Ending>
    ensures { result ≡ ended_with run (R.refused refusal) }
{
    let ending = refusal.refused();
    EndedCall { run, ending }
}

// The same right after an event, which the refusal ends in.
pub fn refused_at<R: TellsRefusal>(run: Run, event: R::Event, refusal: R) -> EndedCall<R::Ending>
    ensures { result ≡ ended_with run (R.refused_at refusal event) }
{
    let ending = refusal.refused_at(event);
    EndedCall { run, ending }
}

// A string that is stopped.
pub fn stopped<S: TellsStop>(run: Run, stop: S) -> EndedCall<S::Ending>
    ensures { result ≡ ended_with run (S.stopped stop) }
{
    let ending = stop.stopped();
    EndedCall { run, ending }
}

// How a step left the call: a status of number 0 and stop 0 says that it is done, and that the call goes on.
pub trait Ends: Copy {
    ghost is_done: { Self → Bool };

    fn is_done(self) -> bool
        ensures { result ≡ is_done self };
}

// No case has both number 0 and stop 0.
impl Ends for Ending {
    ghost is_done = { λ _. false };

    fn is_done(self) -> bool {
        false
    }
}

impl Ends for Status {
    ghost is_done = { going };

    fn is_done(self) -> bool {
        self.number == 0 && self.stop == 0
    }
}

// Whether a step belongs to a string that is got: its ends are stops.
pub fn stops(reading: bool, string: bool) -> bool
    ensures { result ≡ (reading && string) }
{
    reading && string
}

// The event that good file signals.
pub fn file_end(reading: bool) -> Event
    ensures { result ≡ event_as (file_end reading) }
{
    if reading {
        Event::LogicalEnd
    } else {
        Event::PhysicalEnd
    }
}

// Its refusal: 14 at the logical end, 15 at the physical end.
pub fn file_end_refusal(reading: bool) -> Refusal
    ensures { refusal_number result ≡ file_end_number reading }
{
    if reading {
        Refusal::LogicalEndMet
    } else {
        Refusal::PhysicalEndMet
    }
}

// The next answer word, or 0 past the row's end.
pub fn next_word(run: Run, row: &[u32]) -> u32
    ensures { result ≡ next_word row.now run }
{
    let taken = run.taken;
    if taken < row.len() { row[taken] } else { 0 }
}

// The running call after an event is signalled.
pub fn signalled(run: Run, row: &[u32]) -> Run
    requires { run.events < 2 ^ 63 }
    ensures { result ≡ signalled_by row.now run }
{
    let mut r = run;
    let taken = run.taken;
    r.events = run.events + 1;
    if taken < row.len() {
        r.taken = taken + 1;
        return r;
    }
    r
}

// The kind of an answer word: its first four bits.
pub fn kind_of(word: u32) -> u32
    ensures { result ≡ kind_of word }
{
    word >> 28
}

// The page field of an answer word: the next nine bits.
pub fn page_of(word: u32) -> u32
    ensures { result ≡ page_of word }
{
    (word >> 19) & 511
}

// The line field: the nine bits after it.
pub fn line_of(word: u32) -> u32
    ensures { result ≡ line_of word }
{
    (word >> 10) & 511
}

// The character field: the last ten bits.
pub fn character_of(word: u32) -> u32
    ensures { result ≡ character_of word }
{
    word & 1023
}

// The three fields of an answer word as a position. The library has no From<u32> for usize.
pub fn place_of(word: u32) -> Position
    ensures { result ≡ place_of word }
{
    Position {
        page: page_of(word) as usize,
        line: line_of(word) as usize,
        character: character_of(word) as usize,
    }
}

// What a true answer does. The last arm of a `match` over numbers would not tell the proof which numbers are left.
pub fn mending_of(word: u32) -> Mending
    ensures { mending_as result ≡ mending_of word }
{
    let kind = kind_of(word);
    if kind == 2 {
        Mending::Newline
    } else if kind == 3 {
        Mending::Newpage
    } else if kind == 4 {
        Mending::SetTo(place_of(word))
    } else if kind == 5 {
        Mending::Backspace
    } else if kind == 6 {
        Mending::Reset
    } else if kind == 7 {
        // as in `place_of`
        Mending::Suggest(character_of(word) as usize)
    } else {
        Mending::Nothing
    }
}

// What an answer word says.
pub fn answer_of(word: u32) -> Answer
    ensures { answer_as result ≡ answer_of word }
{
    let kind = kind_of(word);
    if kind == 0 {
        Answer::Default
    } else if kind == 8 {
        Answer::Jump
    } else {
        Answer::Mend(mending_of(word))
    }
}

// The next answer.
pub fn next_answer(run: Run, row: &[u32]) -> Answer
    ensures { answer_as result ≡ answer_of (next_word row.now run) }
{
    answer_of(next_word(run, row))
}

// The character that a true answer leaves to an event which suggested b; refusal 2 keeps kind 7 at 255 at most, so `try_from` would add
// an arm that no call reaches.
pub fn suggestion(mending: Mending, b: u8) -> u8
    requires { suggested (mending_as mending) b < 256 }
    ensures { result ≡ suggested (mending_as mending) b }
{
    match mending {
        Mending::Suggest(character) => character as u8,
        _ => b,
    }
}

// "Backspace: c-1; at c = 1 refusal 6."
pub fn backspace(run: Run) -> Outcome
    ensures { result ≡ backspaced_by run }
{
    let position = run.file.position;
    if 1 < position.character {
        Ok(moved(run, position.page, position.line, position.character - 1))
    } else {
        Err(refused(run, Refusal::OutOfRange))
    }
}

// Reset: the moods by the rights, and position (1,1,1).
pub fn reset(run: Run) -> Outcome
    ensures { result ≡ reset_by run }
{
    if run.file.rights.reset {
        let mut r = moved(run, 1, 1, 1);
        let reading = !run.file.rights.put;
        let writing = !run.file.rights.get;
        r.file.reading = reading;
        r.file.writing = writing;
        Ok(r)
    } else {
        Err(refused(run, Refusal::RightMissing))
    }
}
