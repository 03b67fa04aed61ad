// The event cycle: good file, good page, newline, newpage, set, and what follows an answer call each other. They recurse only as deep
// as answers nest; everything else is a loop. Each loop goes on until no event is met or one ends it: it counts nothing, so no `for`.
#![tactic(auto)]

ghost use Rattle.std.specs.Prelude.{◌≡◌};
ghost use Rattle.rules.specs.Step.{outcome, mending_as};
ghost use Rattle.rules.specs.Steps.{Action, execute};
ghost use Rattle.places.specs.Lent.{state_over, outcome_over, SameMemory};
ghost use Rattle.rules.specs.Ready.{Ready};

use places::BookMut;
use rules::{Answer, Event, Mending, Outcome, Position, Refusal, Run, Stop};

// "Good file: reading, signal logical end while the position is at it; writing, signal physical end while p > P."
#[cycle(event)]
pub fn good_file(run: Run, reading: bool, string: bool, book: &mut BookMut, row: &[u32]) -> Outcome
    requires { Ready row.now (Action.good_file reading string) (state_over run book.old) }
    ensures memory { SameMemory book.old book.new }
    ensures outcome { outcome_over result book.new ≡ execute row.now (Action.good_file reading string) (state_over run book.old) book.old.text.now }
{
    let mut here = run;
    while places::file_ended(here, reading) {
        let next = running::signalled(here, row);
        let event = running::file_end(reading);
        here = match running::next_answer(here, row) {
            Answer::Default if string => {
                return Err(running::stopped(next, Stop::EndReached));
            }
            Answer::Default => {
                let refusal = running::file_end_refusal(reading);
                return Err(running::refused_at(next, event, refusal));
            }
            Answer::Jump => {
                return Err(running::refused_at(next, event, Refusal::ProgramJumped));
            }
            Answer::Mend(mending) => { answered(next, mending, reading, book, row)? }
        };
    }
    Ok(here)
}

// "Good page: good file, then signal page end while l exceeds the page length."
#[cycle(event)]
pub fn good_page(run: Run, reading: bool, string: bool, book: &mut BookMut, row: &[u32]) -> Outcome
    requires { Ready row.now (Action.good_page reading string) (state_over run book.old) }
    ensures memory { SameMemory book.old book.new }
    ensures outcome { outcome_over result book.new ≡ execute row.now (Action.good_page reading string) (state_over run book.old) book.old.text.now }
{
    let mut here = run;
    'turning: loop {
        let at = good_file(here, reading, string, book, row)?;
        if !book.page_ended(at) {
            return Ok(at);
        }
        here = page_end(at, reading, book, row)?;
    }
}

// Signals page end, with newpage as its default.
#[cycle(event)]
pub fn page_end(run: Run, reading: bool, book: &mut BookMut, row: &[u32]) -> Outcome
    requires { Ready row.now (Action.at_page_end reading) (state_over run book.old) }
    ensures memory { SameMemory book.old book.new }
    ensures outcome { outcome_over result book.new ≡ execute row.now (Action.at_page_end reading) (state_over run book.old) book.old.text.now }
{
    let next = running::signalled(run, row);
    match running::next_answer(run, row) {
        Answer::Default => newpage(next, reading, book, row),
        Answer::Jump => Err(running::refused_at(next, Event::PageEnd, Refusal::ProgramJumped)),
        Answer::Mend(mending) => answered(next, mending, reading, book, row),
    }
}

// "Newline: good page. On the logical end's line the position first moves to that end; reading starts newline again; writing cuts the
// line there if compress, else fills it with blanks .. On another line only the position moves."
#[cycle(event)]
pub fn newline(run: Run, reading: bool, book: &mut BookMut, row: &[u32]) -> Outcome
    requires { Ready row.now (Action.newline reading) (state_over run book.old) }
    ensures memory { SameMemory book.old book.new }
    ensures outcome { outcome_over result book.new ≡ execute row.now (Action.newline reading) (state_over run book.old) book.old.text.now }
{
    let mut here = run;
    loop {
        let at = good_page(here, reading, false, book, row)?;
        if !places::on_end_line(at) {
            let position = at.file.position;
            return Ok(running::moved(at, position.page, position.line + 1, 1));
        }
        let last = running::moved(at, at.end.page, at.end.line, at.end.character);
        if !reading {
            return Ok(stores::end_line_in(last, book));
        }
        here = last;
    }
}

// "Newpage: good file. On the end's page the position first moves to the end; reading starts again; writing, the rest of the page is
// blanked, or with compress .. cut .. On another page only the position moves."
#[cycle(event)]
pub fn newpage(run: Run, reading: bool, book: &mut BookMut, row: &[u32]) -> Outcome
    requires { Ready row.now (Action.newpage reading) (state_over run book.old) }
    ensures memory { SameMemory book.old book.new }
    ensures outcome { outcome_over result book.new ≡ execute row.now (Action.newpage reading) (state_over run book.old) book.old.text.now }
{
    let mut here = run;
    loop {
        let at = good_file(here, reading, false, book, row)?;
        if at.file.position.page != at.end.page {
            return Ok(running::moved(at, at.file.position.page + 1, 1, 1));
        }
        let last = running::moved(at, at.end.page, at.end.line, at.end.character);
        if !reading {
            return Ok(stores::end_page(last, book));
        }
        here = last;
    }
}

// Follows an answer that is true: it is performed, and the call's mood is set again.
#[cycle(event)]
pub fn answered(
    run: Run,
    mending: Mending,
    reading: bool,
    book: &mut BookMut,
    row: &[u32],
) -> Outcome
    requires { Ready row.now (Action.answered reading (mending_as mending)) (state_over run book.old) }
    ensures memory { SameMemory book.old book.new }
    ensures outcome { outcome_over result book.new ≡ execute row.now (Action.answered reading (mending_as mending)) (state_over run book.old) book.old.text.now }
{
    let after = perform(run, mending, book, row)?;
    Ok(running::in_mood(after, reading))
}

// What a true answer does.
#[cycle(event)]
pub fn perform(run: Run, mending: Mending, book: &mut BookMut, row: &[u32]) -> Outcome
    requires { Ready row.now (Action.perform (mending_as mending)) (state_over run book.old) }
    ensures memory { SameMemory book.old book.new }
    ensures outcome { outcome_over result book.new ≡ execute row.now (Action.perform (mending_as mending)) (state_over run book.old) book.old.text.now }
{
    match mending {
        Mending::Nothing => Ok(run),
        Mending::Suggest(_) => Ok(run),
        Mending::Newline if run.file.reading => newline(run, true, book, row),
        Mending::Newline if run.file.writing => newline(run, false, book, row),
        Mending::Newline => Err(running::refused(run, Refusal::MoodMissing)),
        Mending::Newpage if run.file.reading => newpage(run, true, book, row),
        Mending::Newpage if run.file.writing => newpage(run, false, book, row),
        Mending::Newpage => Err(running::refused(run, Refusal::MoodMissing)),
        Mending::SetTo(to) => set_to(run, to, book, row),
        Mending::Backspace => running::backspace(run),
        Mending::Reset => running::reset(run),
    }
}

// "Set: beyond the logical end, go to that end and signal logical end (0: refusal 7; else done); out of bounds, refusal 6; else go."
// Refusal 7 is 14 since document 02.
#[cycle(event)]
pub fn set_to(run: Run, to: Position, book: &mut BookMut, row: &[u32]) -> Outcome
    requires { Ready row.now (Action.set_to to) (state_over run book.old) }
    ensures memory { SameMemory book.old book.new }
    ensures outcome { outcome_over result book.new ≡ execute row.now (Action.set_to to) (state_over run book.old) book.old.text.now }
{
    if !run.file.rights.set {
        return Err(running::refused(run, Refusal::RightMissing));
    }
    let end = run.end;
    if places::is_before(end, to) {
        let last = running::moved(run, end.page, end.line, end.character);
        let next = running::signalled(last, row);
        return match running::next_answer(last, row) {
            Answer::Default => Err(running::refused_at(
                next,
                Event::LogicalEnd,
                Refusal::LogicalEndMet,
            )),
            Answer::Jump => Err(running::refused_at(
                next,
                Event::LogicalEnd,
                Refusal::ProgramJumped,
            )),
            Answer::Mend(mending) => perform(next, mending, book, row),
        };
    }
    let shape = run.file.shape;
    if book.in_bounds(shape, to) {
        Ok(running::moved(run, to.page, to.line, to.character))
    } else {
        Err(running::refused(run, Refusal::OutOfRange))
    }
}
