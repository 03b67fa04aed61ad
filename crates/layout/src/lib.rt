// The layout calls: space, newline, newpage, set and set char number. Each answers every record, book, row and place; what it hands
// back and leaves is what `call` says. Each call has its own `match`, as in crate puts.
#![tactic(auto)]

ghost use Rattle.std.specs.Prelude.{◌≡◌, []};
ghost use Rattle.rules.specs.Calls.{call, asking, spaces, newlines, newpages, sets, sets_character_number};
ghost use Rattle.rules.specs.Step.{outcome};
ghost use Rattle.rules.specs.Steps.{Action};
ghost use Rattle.places.specs.Lent.{state_over, outcome_over, SameMemory, book_of, after_over};
ghost use Rattle.rules.specs.Ready.{Ready};
ghost use Rattle.layout.specs.Again.{mood_again, placed};

use places::BookMut;
use rules::{File, Outcome, Position, Reply, Run};

// Space: past a character, reading; a blank put, writing past the end of what is written.
pub fn space(file: File, end: Position, book: &mut BookMut, row: &[u32]) -> Reply
    ensures memory { SameMemory book.old book.new }
    ensures answer { after_over result [] book.new ≡ call (asking spaces row.now) file (book_of book.old end) }
{
    let start = entry::start(file, end);
    match begins::in_mood(start, &book.shared(), row) {
        Ok(on) => entry::ended(lines::space(on, file.reading, book, row)),
        Err(ended) => entry::ended(Err(ended)),
    }
}

// Newline: to the start of the next line.
pub fn newline(file: File, end: Position, book: &mut BookMut, row: &[u32]) -> Reply
    ensures memory { SameMemory book.old book.new }
    ensures answer { after_over result [] book.new ≡ call (asking newlines row.now) file (book_of book.old end) }
{
    let start = entry::start(file, end);
    match begins::in_mood(start, &book.shared(), row) {
        Ok(on) => entry::ended(lines::newline(on, file.reading, book, row)),
        Err(ended) => entry::ended(Err(ended)),
    }
}

// Newpage: to the start of the next page.
pub fn newpage(file: File, end: Position, book: &mut BookMut, row: &[u32]) -> Reply
    ensures memory { SameMemory book.old book.new }
    ensures answer { after_over result [] book.new ≡ call (asking newpages row.now) file (book_of book.old end) }
{
    let start = entry::start(file, end);
    match begins::in_mood(start, &book.shared(), row) {
        Ok(on) => entry::ended(events::newpage(on, file.reading, book, row)),
        Err(ended) => entry::ended(Err(ended)),
    }
}

// Set char number: to a place on the line.
pub fn set_character_number(
    file: File,
    end: Position,
    n: usize,
    book: &mut BookMut,
    row: &[u32],
) -> Reply
    ensures memory { SameMemory book.old book.new }
    ensures answer { after_over result [] book.new ≡ call (asking (sets_character_number n) row.now) file (book_of book.old end) }
{
    let start = entry::start(file, end);
    match begins::in_mood(start, &book.shared(), row) {
        Ok(on) => entry::ended(lines::set_character_number(on, file.reading, n, book, row)),
        Err(ended) => entry::ended(Err(ended)),
    }
}

// "the call's mood is set again", if there is one.
pub fn mood_again(run: Run, file: File) -> Run
    ensures { result ≡ mood_again run file }
{
    if file.reading || file.writing {
        running::in_mood(run, file.reading)
    } else {
        run
    }
}

// Set after its tests: the place, and the call's mood again.
pub fn placed(run: Run, file: File, to: Position, book: &mut BookMut, row: &[u32]) -> Outcome
    requires { Ready row.now (Action.set_to to) (state_over run book.old) }
    ensures memory { SameMemory book.old book.new }
    ensures outcome { outcome_over result book.new ≡ placed row.now to file (state_over run book.old) book.old.text.now }
{
    let after = events::set_to(run, to, book, row)?;
    Ok(mood_again(after, file))
}

// Set: to a place in the book.
pub fn set(file: File, end: Position, to: Position, book: &mut BookMut, row: &[u32]) -> Reply
    ensures memory { SameMemory book.old book.new }
    ensures answer { after_over result [] book.new ≡ call (asking (sets to) row.now) file (book_of book.old end) }
{
    let start = entry::start(file, end);
    match begins::may_set(start, &book.shared(), row) {
        Ok(on) => entry::ended(placed(on, file, to, book, row)),
        Err(ended) => entry::ended(Err(ended)),
    }
}
