// The puts: a character, a string, an integer. Each answers every record, book, row and text; what it hands back and leaves is what
// `call` says.
// Each call has its own `match`: by `and_then` no proof knows what the closure leaves of the book that it captures, and a function with `?`
// for each would be longer.
#![tactic(auto)]

ghost use Rattle.std.specs.Prelude.{◌≡◌, []};
ghost use Rattle.places.specs.Lent.{SameMemory, book_of, after_over};
ghost use Rattle.rules.specs.Calls.{call, asking, puts_character, puts_string, puts_integer};

use places::BookMut;
use rules::{File, Position, Reply};

// Puts a character.
pub fn put_character(file: File, end: Position, b: u8, book: &mut BookMut, row: &[u32]) -> Reply
    ensures memory { SameMemory book.old book.new }
    ensures answer { after_over result [] book.new ≡ call (asking (puts_character b) row.now) file (book_of book.old end) }
{
    let start = entry::start(file, end);
    match begins::prepared(start, false, &book.shared(), row) {
        Ok(on) => entry::ended(lines::put_character(on, b, book, row)),
        Err(ended) => entry::ended(Err(ended)),
    }
}

// Puts the characters of a string in turn.
pub fn put_string(file: File, end: Position, bytes: &[u8], book: &mut BookMut, row: &[u32]) -> Reply
    ensures memory { SameMemory book.old book.new }
    ensures answer { after_over result [] book.new ≡ call (asking (puts_string bytes.now) row.now) file (book_of book.old end) }
{
    let start = entry::start(file, end);
    match begins::prepared(start, false, &book.shared(), row) {
        Ok(on) => entry::ended(strings::put_string(on, bytes, book, row)),
        Err(ended) => entry::ended(Err(ended)),
    }
}

// Puts an integer: a blank where the line has begun, then whole(v, 11).
pub fn put_integer(file: File, end: Position, v: i32, book: &mut BookMut, row: &[u32]) -> Reply
    ensures memory { SameMemory book.old book.new }
    ensures answer { after_over result [] book.new ≡ call (asking (puts_integer v) row.now) file (book_of book.old end) }
{
    let start = entry::start(file, end);
    if v == -2147483648 {
        return entry::ended(begins::lowest(start, &book.shared(), row));
    }
    match begins::prepared(start, false, &book.shared(), row) {
        Ok(on) => entry::ended(integers::put_integer(on, v, book, row)),
        Err(ended) => entry::ended(Err(ended)),
    }
}
