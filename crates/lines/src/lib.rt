// Above the event cycle: good line, put of a character, space and set char number. Each loop goes on until no event is met or one ends
// it, and that of set char number until its place is reached: an event can move the position, so neither is a `for`.
#![tactic(auto)]

ghost use Rattle.std.specs.Prelude.{◌≡◌, T, false};
ghost use Rattle.rules.specs.Book.{row_fits};
ghost use Rattle.rules.specs.Step.{outcome, mending_as};
ghost use Rattle.rules.specs.Steps.{Action, character_event, space_step, execute};
ghost use Rattle.places.specs.Lent.{state_over, outcome_over, giving_over, SameMemory};
ghost use Rattle.rules.specs.Ready.{Ready};

use places::BookMut;
use rules::{Answer, EndedCall, Event, Mending, Outcome, Refusal, Run, Stop, Taken};

// "signals character, suggesting" b; "default refusal 8", else the character that the answer leaves.
pub fn character_event(
    run: Run,
    reading: bool,
    b: u8,
    book: &mut BookMut,
    row: &[u32],
) -> Result<Taken<u8>, EndedCall>
    requires ready { Ready row.now Action.pass_blanks (state_over run book.old) }
    requires row_good { T (row_fits row.now) }
    ensures memory { SameMemory book.old book.new }
    ensures outcome { giving_over result book.new ≡ character_event row.now (execute row.now) reading b (state_over run book.old) book.old.text.now }
{
    let next = running::signalled(run, row);
    match running::next_answer(run, row) {
        Answer::Default => Err(running::refused_at(next, Event::Character, Refusal::BadCharacter)),
        Answer::Jump => Err(running::refused_at(next, Event::Character, Refusal::ProgramJumped)),
        Answer::Mend(mending) => {
            let value = running::suggestion(mending, b);
            let run = events::answered(next, mending, reading, book, row)?;
            Ok(Taken { run, value })
        }
    }
}

// Newline: most often it is written at the logical end, in a page with that line, and signals nothing. It is part
// of each caller, so that no record is copied.
#[inline(always)]
pub fn newline(run: Run, reading: bool, book: &mut BookMut, row: &[u32]) -> Outcome
    requires { Ready row.now (Action.newline reading) (state_over run book.old) }
    ensures memory { SameMemory book.old book.new }
    ensures outcome { outcome_over result book.new ≡ execute row.now (Action.newline reading) (state_over run book.old) book.old.text.now }
{
    if reading || !places::on_end_line(run) || !book.page_good(run, reading) {
        return events::newline(run, reading, book, row);
    }
    let last = running::moved(run, run.end.page, run.end.line, run.end.character);
    Ok(stores::end_line_in(last, book))
}

// Follows a newline that was answered and not in read mood: most often it is written at the logical end, and signals nothing.
pub fn answered_writing(
    run: Run,
    mending: Mending,
    reading: bool,
    book: &mut BookMut,
    row: &[u32],
) -> Outcome
    requires ready { Ready row.now (Action.answered reading (mending_as mending)) (state_over run book.old) }
    requires newline_asked { (mending ≡ Mending.Newline) × (run.file.reading ≡ false) }
    ensures memory { SameMemory book.old book.new }
    ensures outcome { outcome_over result book.new ≡ execute row.now (Action.answered reading (mending_as mending)) (state_over run book.old) book.old.text.now }
{
    if !run.file.writing {
        return events::answered(run, mending, reading, book, row);
    }
    let turned = newline(run, false, book, row)?;
    Ok(running::in_mood(turned, reading))
}

// Follows an answer that is true: most often it is a newline, reading to another line than the logical end's, or writing, and signals
// nothing.
pub fn answered(
    run: Run,
    mending: Mending,
    reading: bool,
    book: &mut BookMut,
    row: &[u32],
) -> Outcome
    requires { Ready row.now (Action.answered reading (mending_as mending)) (state_over run book.old) }
    ensures memory { SameMemory book.old book.new }
    ensures outcome { outcome_over result book.new ≡ execute row.now (Action.answered reading (mending_as mending)) (state_over run book.old) book.old.text.now }
{
    match mending {
        Mending::Newline if !run.file.reading => {
            answered_writing(run, mending, reading, book, row)
        }
        Mending::Newline if book.page_good(run, true) && !places::on_end_line(run) => {
            let position = run.file.position;
            let on = running::moved(run, position.page, position.line + 1, 1);
            Ok(running::in_mood(on, reading))
        }
        _ => events::answered(run, mending, reading, book, row),
    }
}

// Signals line end: its default is newline, or a string's stop 2.
pub fn line_end(run: Run, reading: bool, string: bool, book: &mut BookMut, row: &[u32]) -> Outcome
    requires { Ready row.now (Action.at_line_end reading string) (state_over run book.old) }
    ensures memory { SameMemory book.old book.new }
    ensures outcome { outcome_over result book.new ≡ execute row.now (Action.at_line_end reading string) (state_over run book.old) book.old.text.now }
{
    let next = running::signalled(run, row);
    match running::next_answer(run, row) {
        Answer::Default if !string => newline(next, reading, book, row),
        Answer::Default if reading => Err(running::stopped(next, Stop::LineOver)),
        Answer::Default if next.file.split => newline(next, reading, book, row),
        Answer::Default => Err(running::refused_at(
            next,
            Event::LineEnd,
            Refusal::StringDoesNotFit,
        )),
        Answer::Jump => Err(running::refused_at(next, Event::LineEnd, Refusal::ProgramJumped)),
        Answer::Mend(mending) => answered(next, mending, reading, book, row),
    }
}

// "Good page: good file, then signal page end while l exceeds the page length." Most often the page is good at once.
pub fn good_page(run: Run, reading: bool, string: bool, book: &mut BookMut, row: &[u32]) -> Outcome
    requires { Ready row.now (Action.good_page reading string) (state_over run book.old) }
    ensures memory { SameMemory book.old book.new }
    ensures outcome { outcome_over result book.new ≡ execute row.now (Action.good_page reading string) (state_over run book.old) book.old.text.now }
{
    if book.page_good(run, reading) {
        return Ok(run);
    }
    events::good_page(run, reading, string, book, row)
}

// Good line with its events.
pub fn reach_line(run: Run, reading: bool, string: bool, book: &mut BookMut, row: &[u32]) -> Outcome
    requires { Ready row.now (Action.good_line reading string) (state_over run book.old) }
    ensures memory { SameMemory book.old book.new }
    ensures outcome { outcome_over result book.new ≡ execute row.now (Action.good_line reading string) (state_over run book.old) book.old.text.now }
{
    let stops = running::stops(reading, string);
    let mut here = run;
    loop {
        let at = good_page(here, reading, stops, book, row)?;
        if !book.line_ended(at) {
            return Ok(at);
        }
        here = line_end(at, reading, string, book, row)?;
    }
}

// "Good line: good page, then signal line end while c exceeds the line length." Most often the line is good at once.
pub fn good_line(run: Run, reading: bool, string: bool, book: &mut BookMut, row: &[u32]) -> Outcome
    requires { Ready row.now (Action.good_line reading string) (state_over run book.old) }
    ensures memory { SameMemory book.old book.new }
    ensures outcome { outcome_over result book.new ≡ execute row.now (Action.good_line reading string) (state_over run book.old) book.old.text.now }
{
    if book.line_good(run, reading) {
        return Ok(run);
    }
    reach_line(run, reading, string, book, row)
}

// Put a character with its events: each suggestion is tried from the start. A character of a string follows the choice at its line end.
pub fn try_character(run: Run, string: bool, b: u8, book: &mut BookMut, row: &[u32]) -> Outcome
    requires ready { Ready row.now (Action.put_character string b) (state_over run book.old) }
    requires row_good { T (row_fits row.now) }
    ensures memory { SameMemory book.old book.new }
    ensures outcome { outcome_over result book.new ≡ execute row.now (Action.put_character string b) (state_over run book.old) book.old.text.now }
{
    let mut here = run;
    let mut c = b;
    loop {
        let at = reach_line(here, false, string, book, row)?;
        if characters::is_printable(c) {
            return Ok(stores::store_character(at, book, c));
        }
        let taken = character_event(at, false, b' ', book, row)?;
        c = taken.value;
        here = taken.run;
    }
}

// "Put a character: good line; a byte outside 32 to 126 signals character, suggesting a blank .. Store it, c+1." Most often it is
// printable, and the line is good at once.
pub fn put_character(run: Run, b: u8, book: &mut BookMut, row: &[u32]) -> Outcome
    requires ready { Ready row.now (Action.put_character false b) (state_over run book.old) }
    requires row_good { T (row_fits row.now) }
    ensures memory { SameMemory book.old book.new }
    ensures outcome { outcome_over result book.new ≡ execute row.now (Action.put_character false b) (state_over run book.old) book.old.text.now }
{
    if characters::is_printable(b) && book.line_good(run, false) {
        return Ok(stores::store_character(run, book, b));
    }
    try_character(run, false, b, book, row)
}

// "Space: good line; reading, or writing before the logical end, c+1; writing at it, put a blank."
pub fn space(run: Run, reading: bool, book: &mut BookMut, row: &[u32]) -> Outcome
    requires { Ready row.now (Action.good_line reading false) (state_over run book.old) }
    ensures memory { SameMemory book.old book.new }
    ensures outcome { outcome_over result book.new ≡ space_step row.now (execute row.now) reading (state_over run book.old) book.old.text.now }
{
    let at = good_line(run, reading, false, book, row)?;
    let position = at.file.position;
    if reading || places::is_before(position, at.end) {
        return Ok(running::moved(at, position.page, position.line, position.character + 1));
    }
    Ok(stores::store_character(at, book, b' '))
}

// "Set char number n: while c is not n: n out of bounds for this line, refusal 6; else space or backspace."
pub fn set_character_number(
    run: Run,
    reading: bool,
    n: usize,
    book: &mut BookMut,
    row: &[u32],
) -> Outcome
    requires { Ready row.now (Action.set_character_number reading n) (state_over run book.old) }
    ensures memory { SameMemory book.old book.new }
    ensures outcome { outcome_over result book.new ≡ execute row.now (Action.set_character_number reading n) (state_over run book.old) book.old.text.now }
{
    let mut here = run;
    loop {
        let shape = here.file.shape;
        let position = here.file.position;
        let size = book.line_length(shape, position.page, position.line);
        if position.character == n {
            return Ok(here);
        }
        if n < 1 || size + 1 < n {
            return Err(running::refused(here, Refusal::OutOfRange));
        }
        if n < position.character {
            return Ok(running::moved(here, position.page, position.line, n));
        }
        here = space(here, reading, book, row)?;
    }
}
