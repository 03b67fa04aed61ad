// The calls that signal no event: establish, open, close, the choice of C-14, reset and backspace. Each answers every record and book; what
// it hands back and leaves is what `call` says.
#![tactic(auto)]

ghost use Rattle.std.specs.Prelude.{◌≡◌, [], true, false};
ghost use Rattle.rules.specs.Book.{place, file_as, file_choosing, file_opened, rewound};
ghost use Rattle.plain.specs.Done.{done_reply};
ghost use Rattle.places.specs.Lent.{shared_book, after_shared};
ghost use Rattle.rules.specs.Calls.{book, call, after, plain, establishes, opens, closes, chooses, resets, backspaces};

use places::BookRef;
use rules::{File, Position, Refusal, Reply};

// Where a book begins.
const FIRST: Position = Position {
    page: 1,
    line: 1,
    character: 1,
};

// The record that establish leaves: open, in write mood, at (1,1,1).
pub fn established(file: File) -> File
    ensures { result ≡ file_as file true false true (place 1 1 1) false }
{
    File {
        opened: true,
        reading: false,
        writing: true,
        split: false,
        position: FIRST,
        ..file
    }
}

// The record that open leaves: open, its moods by its rights, at (1,1,1).
pub fn opened(file: File) -> File
    ensures { result ≡ file_choosing (rewound (file_opened file true)) false }
{
    File {
        opened: true,
        reading: !file.rights.put,
        writing: !file.rights.get,
        split: false,
        position: FIRST,
        ..file
    }
}

// A call that is done, with the record and the logical end that it leaves.
pub fn done(file: File, end: Position) -> Reply
    ensures { result ≡ done_reply file end }
{
    entry::ended(Ok(entry::start(file, end)))
}

// Establishes a book over lent memory: every length full, and no character wiped.
// The C interface lends its text to be read alone, so it takes no `BookMut`.
pub fn establish(
    file: File,
    end: Position,
    text: &[u8],
    lines: &mut [u8],
    pages: &mut [u8],
) -> Reply
    ensures { after result [] text.now lines.new pages.new ≡ call (plain establishes) file (book text.now lines.old pages.old end) }
{
    let start = entry::start(file, end);
    let book = BookRef { text, lines, pages };
    if !entry::shape_fits(start, &book) {
        return entry::refuse(start, Refusal::BadBook);
    }
    if !file.rights.put {
        return entry::refuse(start, Refusal::RightMissing);
    }
    // A shape that fits is at most 255: `try_from` would add an arm that no call reaches.
    lines.fill(file.shape.characters as u8);
    pages.fill(file.shape.lines as u8);
    done(established(file), FIRST)
}

// Opens a book with the logical end that it has.
pub fn open(file: File, end: Position, book: &BookRef) -> Reply
    ensures { after_shared result [] book.now ≡ call (plain opens) file (shared_book book.now end) }
{
    let start = entry::start(file, end);
    if !entry::book_fits(start, book) {
        return entry::refuse(start, Refusal::BadBook);
    }
    done(opened(file), end)
}

// Closes the record.
pub fn close(file: File, end: Position, book: &BookRef) -> Reply
    ensures { after_shared result [] book.now ≡ call (plain closes) file (shared_book book.now end) }
{
    let start = entry::start(file, end);
    if let Err(refusal) = entry::test_book(start, book) {
        return entry::refuse(start, refusal);
    }
    let mut closed = file;
    closed.opened = false;
    done(closed, end)
}

// Chooses what becomes of a string that does not fit on its line: the Report's split, or refusal 16.
pub fn choose(file: File, end: Position, split: bool, book: &BookRef) -> Reply
    ensures { after_shared result [] book.now ≡ call (plain (chooses split)) file (shared_book book.now end) }
{
    let start = entry::start(file, end);
    if let Err(refusal) = entry::test_book(start, book) {
        return entry::refuse(start, refusal);
    }
    let mut chosen = file;
    chosen.split = split;
    done(chosen, end)
}

// Resets the record: its moods by its rights, at (1,1,1).
pub fn reset(file: File, end: Position, book: &BookRef) -> Reply
    ensures { after_shared result [] book.now ≡ call (plain resets) file (shared_book book.now end) }
{
    let start = entry::start(file, end);
    if let Err(refusal) = entry::test_book(start, book) {
        return entry::refuse(start, refusal);
    }
    entry::ended(running::reset(start))
}

// Backspaces: one character back on the line.
pub fn backspace(file: File, end: Position, book: &BookRef) -> Reply
    ensures { after_shared result [] book.now ≡ call (plain backspaces) file (shared_book book.now end) }
{
    let start = entry::start(file, end);
    if let Err(refusal) = entry::test_book(start, book) {
        return entry::refuse(start, refusal);
    }
    entry::ended(running::backspace(start))
}
