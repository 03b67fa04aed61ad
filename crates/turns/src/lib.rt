// The turn to the next line where a line end is that and nothing more. Strings that go over many lines meet it at each, so it is done
// without the event cycle.
#![tactic(auto)]

ghost use Rattle.std.specs.Prelude.{◌≡◌, ◌<◌, ◌≤◌, ◌^◌};
ghost use Rattle.rules.specs.Book.{state, moved_to, next_line, signalled_by};
ghost use Rattle.rules.specs.Step.{done, end_line};
ghost use Rattle.places.specs.Small.{Small};
ghost use Rattle.places.specs.Lent.{state_over, SameMemory};
ghost use Rattle.turns.specs.Turns.{in_mood_of, newline_follows, turning_line, turns_here};

use places::{BookMut, BookRef};
use rules::{Answer, Mending, Run};

// Whether the mood of a call is on, and the other is not.
pub fn in_mood_of(run: Run, reading: bool) -> bool
    ensures { result ≡ in_mood_of reading run }
{
    if reading {
        run.file.reading && !run.file.writing
    } else {
        !run.file.reading && run.file.writing
    }
}

// Whether a newline follows the event at the end of a string's line.
pub fn newline_follows(run: Run, reading: bool, row: &[u32]) -> bool
    ensures { result ≡ newline_follows row.now reading run }
{
    match running::next_answer(run, row) {
        Answer::Default => !reading && run.file.split,
        Answer::Mend(Mending::Newline) => in_mood_of(run, reading),
        _ => false,
    }
}

// Reading, whether the position is on another line than the logical end's; writing, whether it is on that line.
pub fn on_turning_line(run: Run, reading: bool) -> bool
    ensures { result ≡ turning_line reading run }
{
    let last = places::on_end_line(run);
    if reading { !last } else { last }
}

// Whether the line has ended, and there is only a turn to the next one.
pub fn turns(run: Run, reading: bool, book: &BookRef, row: &[u32]) -> bool
    requires { Small run.file.shape run.file.position.page run.file.position.line }
    ensures { result ≡ turns_here row.now reading (state run book.now.lines.now book.now.pages.now) }
{
    book.page_good(run, reading)
        && on_turning_line(run, reading)
        && book.line_ended(run)
        && newline_follows(run, reading, row)
}

// The turn of a reader: the event, and the position at the start of the next line.
pub fn turned_reading(run: Run, row: &[u32]) -> Run
    requires { (run.events < 2 ^ 63) × (run.file.position.line ≤ 256) }
    ensures { result ≡ moved_to (signalled_by row.now run) (next_line run.file.position) }
{
    let next = running::signalled(run, row);
    running::moved(next, run.file.position.page, run.file.position.line + 1, 1)
}

// The turn of a writer: the event, and the writing end of the logical end's line. The lengths of the pages are only read.
pub fn turned_writing(run: Run, text: &mut [u8], lines: &mut [u8], pages: &[u8], row: &[u32]) -> Run
    requires { (run.events < 2 ^ 63) × Small run.file.shape run.end.page run.end.line × ((1 ≤ run.end.character) × (run.end.character ≤ 256)) }
    ensures { done (tt {0}) (state result lines.new pages.now) text.new ≡ end_line (state (moved_to (signalled_by row.now run) run.end) lines.old pages.now) text.old }
{
    stores::end_line(at_end(run, row), text, lines, pages)
}

// The same of a book that is lent as one.
pub fn turned_writing_in(run: Run, book: &mut BookMut, row: &[u32]) -> Run
    requires { (run.events < 2 ^ 63) × Small run.file.shape run.end.page run.end.line × ((1 ≤ run.end.character) × (run.end.character ≤ 256)) }
    ensures memory { SameMemory book.old book.new }
    ensures outcome { done (tt {0}) (state_over result book.new) book.new.text.now ≡ end_line (state_over (moved_to (signalled_by row.now run) run.end) book.old) book.old.text.now }
{
    stores::end_line_in(at_end(run, row), book)
}

// The event of a writer's turn, with the position at the logical end.
fn at_end(run: Run, row: &[u32]) -> Run
    requires { run.events < 2 ^ 63 }
    ensures { result ≡ moved_to (signalled_by row.now run) run.end }
{
    let next = running::signalled(run, row);
    running::moved(next, run.end.page, run.end.line, run.end.character)
}
