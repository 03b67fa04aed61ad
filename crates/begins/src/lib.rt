// How a call that lends answers begins: the tests before work in their order, then what its kind of call needs.
#![tactic(auto)]

ghost use Rattle.std.specs.Prelude.{◌≡◌, length};
ghost use Rattle.rules.specs.Book.{state};
ghost use Rattle.entry.specs.Before.{before_asking};
ghost use Rattle.begins.specs.Begin.{asked_as, prepared_by, in_mood_by, may_set_by, lowest_by};

use places::BookRef;
use rules::{EndedCall, Outcome, Refusal, Run};

// The tests before work: the first that fails ends the call.
pub fn asked(run: Run, book: &BookRef, row: &[u32]) -> Result<(), EndedCall>
    ensures { result ≡ asked_as run (before_asking row.now (length book.now.text.now) (state run book.now.lines.now book.now.pages.now)) }
{
    entry::test_call(run, book, row).map_err(|refusal| running::refused(run, refusal))
}

// A get or a put: 4 without its right, 5 against a mood that cannot turn; then the mood is turned. It is part of each caller, so that no
// record is copied.
#[inline(always)]
pub fn prepared(run: Run, reading: bool, book: &BookRef, row: &[u32]) -> Outcome
    ensures { result ≡ prepared_by row.now reading (length book.now.text.now) (state run book.now.lines.now book.now.pages.now) }
{
    asked(run, book, row)?;
    entry::turned(run, reading)
}

// "Space, newline, newpage and set char number need a mood": 5 without one. It is part of each caller too.
#[inline(always)]
pub fn in_mood(run: Run, book: &BookRef, row: &[u32]) -> Outcome
    ensures { result ≡ in_mood_by row.now (length book.now.text.now) (state run book.now.lines.now book.now.pages.now) }
{
    asked(run, book, row)?;
    if run.file.reading || run.file.writing {
        Ok(run)
    } else {
        Err(running::refused(run, Refusal::MoodMissing))
    }
}

// Set: 4 without its right.
pub fn may_set(run: Run, book: &BookRef, row: &[u32]) -> Outcome
    ensures { result ≡ may_set_by row.now (length book.now.text.now) (state run book.now.lines.now book.now.pages.now) }
{
    asked(run, book, row)?;
    if run.file.rights.set {
        Ok(run)
    } else {
        Err(running::refused(run, Refusal::RightMissing))
    }
}

// A put of -2147483648: 9, where no earlier test failed.
pub fn lowest(run: Run, book: &BookRef, row: &[u32]) -> Outcome
    ensures { result ≡ lowest_by row.now (length book.now.text.now) (state run book.now.lines.now book.now.pages.now) }
{
    asked(run, book, row)?;
    Err(running::refused(run, Refusal::TooLarge))
}
