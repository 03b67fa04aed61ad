// The gets: a character, a string, an integer. Each answers every record, book, row and output; what it hands back and leaves is what
// `call` says. Each call has its own `match`, as in crate puts.
#![tactic(auto)]

ghost use Rattle.std.specs.Prelude.{◌≡◌, [], T};
ghost use Rattle.rules.specs.Book.{row_fits};
ghost use Rattle.rules.specs.Steps.{Action};
ghost use Rattle.places.specs.Lent.{state_over, SameMemory, book_of, after_over};
ghost use Rattle.rules.specs.Ready.{Ready};
ghost use Rattle.rules.specs.Calls.{call, asking, gets_character, gets_string, gets_integer};
ghost use Rattle.laws.specs.Given.{given_out};
ghost use Rattle.gets.specs.Character.{one_character};

use places::BookMut;
use rules::{EndedCall, File, Given, Position, Reply, Run, Taken};

// "good line, pass it ..": a character.
pub fn one_character(run: Run, book: &mut BookMut, row: &[u32]) -> Result<Taken<Given>, EndedCall>
    requires ready { Ready row.now Action.pass_blanks (state_over run book.old) }
    requires row_good { T (row_fits row.now) }
    ensures memory { SameMemory book.old book.new }
    ensures outcome { given_out result book.new.text.now book.new.lines.now book.new.pages.now ≡ one_character row.now (state_over run book.old) book.old.text.now }
{
    let good = lines::good_line(run, true, false, book, row)?;
    let taken = strings::take_character(good, book, row)?;
    Ok(Taken {
        run: taken.run,
        value: Given::Character(taken.value),
    })
}

// Gets a character.
pub fn get_character(file: File, end: Position, book: &mut BookMut, row: &[u32]) -> Reply
    ensures memory { SameMemory book.old book.new }
    ensures answer { after_over result [] book.new ≡ call (asking gets_character row.now) file (book_of book.old end) }
{
    let start = entry::start(file, end);
    match begins::prepared(start, true, &book.shared(), row) {
        Ok(on) => entry::given(one_character(on, book, row)),
        Err(ended) => entry::ended(Err(ended)),
    }
}

// Gets a string into the lent output.
pub fn get_string(
    file: File,
    end: Position,
    terminators: &[u8],
    output: &mut [u8],
    book: &mut BookMut,
    row: &[u32],
) -> Reply
    ensures memory { SameMemory book.old book.new }
    ensures answer { after_over result output.new book.new ≡ call (asking (gets_string terminators.now output.old) row.now) file (book_of book.old end) }
{
    let start = entry::start(file, end);
    match begins::prepared(start, true, &book.shared(), row) {
        Ok(on) => {
            let got = strings::get_string(on, terminators, output, book, row);
            entry::reply(got.run, got.count, Err(got.ending))
        }
        Err(ended) => entry::ended(Err(ended)),
    }
}

// Gets an integer.
pub fn get_integer(file: File, end: Position, book: &mut BookMut, row: &[u32]) -> Reply
    ensures memory { SameMemory book.old book.new }
    ensures answer { after_over result [] book.new ≡ call (asking gets_integer row.now) file (book_of book.old end) }
{
    let start = entry::start(file, end);
    match begins::prepared(start, true, &book.shared(), row) {
        Ok(on) => {
            let found = integers::take_integer(on, book, row);
            entry::given(found)
        }
        Err(ended) => entry::ended(Err(ended)),
    }
}
