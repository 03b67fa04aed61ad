// The thin layer: the interpreter keeps one file record and lends it to be changed at each call. Each function takes the record apart,
// calls the core on it and stores the new one; each gives and leaves what the core does. All are exported for C by crate c_library, and
// include/transput.h declares them; only the line view is not, since C can be handed no slice.
#![tactic(auto)]

ghost use Rattle.std.specs.Prelude.{◌≡◌, []};
ghost use Rattle.rules.specs.Whole.{whole};
ghost use Rattle.rules.specs.Calls.{book, call, plain, asking, establishes, opens, closes, chooses, resets, backspaces, views, view_numbers, puts_character, puts_string, puts_integer, gets_character, gets_string, gets_integer, spaces, newlines, newpages, sets, sets_character_number};
ghost use Rattle.views.specs.Spans.{view_after, Viewed};
ghost use Rattle.places.specs.Lent.{SameMemory, book_of, shared_book};
ghost use Rattle.numbers.specs.Numbers.{after_numbers, InNumbers};
ghost use Rattle.transput.specs.Lent.{numbers_over, numbers_shared};
ghost use Rattle.differences.specs.Compare.{answer, compared, differ, difference_count};

use differs::Differences;
use numbers::CallResult;
use places::{BookMut, BookRef};
use rules::{File, Position, Reply};
use views::ViewPlace;
use whole::Wrote;

// What a call leaves: the record in its place, and the result in numbers. It is part of each caller, so that no reply is copied.
#[inline(always)]
pub fn leave(file: &mut File, reply: Reply) -> CallResult
    ensures { InNumbers reply file.new result }
{
    *file = reply.file;
    numbers::in_numbers(reply)
}

// Establishes a book over lent memory: every length full, and no character wiped.
pub fn transput_establish(
    file: &mut File,
    end: Position,
    text: &[u8],
    lines: &mut [u8],
    pages: &mut [u8],
) -> CallResult
    ensures { after_numbers file.new result [] text.now lines.new pages.new ≡ call (plain establishes) file.old (book text.now lines.old pages.old end) }
{
    leave(file, plain::establish(*file, end, text, lines, pages))
}

// Opens a book with the logical end that it has.
pub fn transput_open(file: &mut File, end: Position, book: &BookRef) -> CallResult
    ensures { numbers_shared file.new result [] book.now ≡ call (plain opens) file.old (shared_book book.now end) }
{
    leave(file, plain::open(*file, end, book))
}

// Closes the record.
pub fn transput_close(file: &mut File, end: Position, book: &BookRef) -> CallResult
    ensures { numbers_shared file.new result [] book.now ≡ call (plain closes) file.old (shared_book book.now end) }
{
    leave(file, plain::close(*file, end, book))
}

// Chooses what becomes of a string that does not fit on its line: the Report's split, or refusal 16.
pub fn transput_choose(file: &mut File, end: Position, split: bool, book: &BookRef) -> CallResult
    ensures { numbers_shared file.new result [] book.now ≡ call (plain (chooses split)) file.old (shared_book book.now end) }
{
    leave(file, plain::choose(*file, end, split, book))
}

// Resets the record: its moods by its rights, at (1,1,1).
pub fn transput_reset(file: &mut File, end: Position, book: &BookRef) -> CallResult
    ensures { numbers_shared file.new result [] book.now ≡ call (plain resets) file.old (shared_book book.now end) }
{
    leave(file, plain::reset(*file, end, book))
}

// Backspaces: one character back on the line.
pub fn transput_backspace(file: &mut File, end: Position, book: &BookRef) -> CallResult
    ensures { numbers_shared file.new result [] book.now ≡ call (plain backspaces) file.old (shared_book book.now end) }
{
    leave(file, plain::backspace(*file, end, book))
}

// Puts a character.
pub fn transput_put_character(
    file: &mut File,
    end: Position,
    b: u8,
    book: &mut BookMut,
    row: &[u32],
) -> CallResult
    ensures memory { SameMemory book.old book.new }
    ensures answer { numbers_over file.new result [] book.new ≡ call (asking (puts_character b) row.now) file.old (book_of book.old end) }
{
    leave(file, puts::put_character(*file, end, b, book, row))
}

// Puts the characters of a string in turn.
pub fn transput_put_string(
    file: &mut File,
    end: Position,
    bytes: &[u8],
    book: &mut BookMut,
    row: &[u32],
) -> CallResult
    ensures memory { SameMemory book.old book.new }
    ensures answer { numbers_over file.new result [] book.new ≡ call (asking (puts_string bytes.now) row.now) file.old (book_of book.old end) }
{
    leave(file, puts::put_string(*file, end, bytes, book, row))
}

// Puts an integer: a blank where the line has begun, then whole(v, 11).
pub fn transput_put_integer(
    file: &mut File,
    end: Position,
    v: i32,
    book: &mut BookMut,
    row: &[u32],
) -> CallResult
    ensures memory { SameMemory book.old book.new }
    ensures answer { numbers_over file.new result [] book.new ≡ call (asking (puts_integer v) row.now) file.old (book_of book.old end) }
{
    leave(file, puts::put_integer(*file, end, v, book, row))
}

// Gets a character.
pub fn transput_get_character(
    file: &mut File,
    end: Position,
    book: &mut BookMut,
    row: &[u32],
) -> CallResult
    ensures memory { SameMemory book.old book.new }
    ensures answer { numbers_over file.new result [] book.new ≡ call (asking gets_character row.now) file.old (book_of book.old end) }
{
    leave(file, gets::get_character(*file, end, book, row))
}

// Gets a string into the lent output.
pub fn transput_get_string(
    file: &mut File,
    end: Position,
    terminators: &[u8],
    output: &mut [u8],
    book: &mut BookMut,
    row: &[u32],
) -> CallResult
    ensures memory { SameMemory book.old book.new }
    ensures answer { numbers_over file.new result output.new book.new ≡ call (asking (gets_string terminators.now output.old) row.now) file.old (book_of book.old end) }
{
    leave(
        file,
        gets::get_string(*file, end, terminators, output, book, row),
    )
}

// Gets an integer.
pub fn transput_get_integer(
    file: &mut File,
    end: Position,
    book: &mut BookMut,
    row: &[u32],
) -> CallResult
    ensures memory { SameMemory book.old book.new }
    ensures answer { numbers_over file.new result [] book.new ≡ call (asking gets_integer row.now) file.old (book_of book.old end) }
{
    leave(file, gets::get_integer(*file, end, book, row))
}

// Space: past a character, reading; a blank put, writing past the end of what is written.
pub fn transput_space(file: &mut File, end: Position, book: &mut BookMut, row: &[u32]) -> CallResult
    ensures memory { SameMemory book.old book.new }
    ensures answer { numbers_over file.new result [] book.new ≡ call (asking spaces row.now) file.old (book_of book.old end) }
{
    leave(file, layout::space(*file, end, book, row))
}

// Newline: to the start of the next line.
pub fn transput_newline(
    file: &mut File,
    end: Position,
    book: &mut BookMut,
    row: &[u32],
) -> CallResult
    ensures memory { SameMemory book.old book.new }
    ensures answer { numbers_over file.new result [] book.new ≡ call (asking newlines row.now) file.old (book_of book.old end) }
{
    leave(file, layout::newline(*file, end, book, row))
}

// Newpage: to the start of the next page.
pub fn transput_newpage(
    file: &mut File,
    end: Position,
    book: &mut BookMut,
    row: &[u32],
) -> CallResult
    ensures memory { SameMemory book.old book.new }
    ensures answer { numbers_over file.new result [] book.new ≡ call (asking newpages row.now) file.old (book_of book.old end) }
{
    leave(file, layout::newpage(*file, end, book, row))
}

// Set: to a place in the book.
pub fn transput_set(
    file: &mut File,
    end: Position,
    to: Position,
    book: &mut BookMut,
    row: &[u32],
) -> CallResult
    ensures memory { SameMemory book.old book.new }
    ensures answer { numbers_over file.new result [] book.new ≡ call (asking (sets to) row.now) file.old (book_of book.old end) }
{
    leave(file, layout::set(*file, end, to, book, row))
}

// Set char number: to a place on the line.
pub fn transput_set_character_number(
    file: &mut File,
    end: Position,
    n: usize,
    book: &mut BookMut,
    row: &[u32],
) -> CallResult
    ensures memory { SameMemory book.old book.new }
    ensures answer { numbers_over file.new result [] book.new ≡ call (asking (sets_character_number n) row.now) file.old (book_of book.old end) }
{
    leave(file, layout::set_character_number(*file, end, n, book, row))
}

// The number of a line view, asked for apart.
pub fn transput_view_number(
    file: &File,
    end: Position,
    page: usize,
    line: usize,
    book: &BookRef,
) -> CallResult
    ensures { numbers_shared file.now result [] book.now ≡ call (plain (view_numbers page line)) file.now (shared_book book.now end) }
{
    let place = views::view_place(*file, end, page, line, book, &[]);
    CallResult {
        number: place.number,
        stop: 0,
        given: 0,
        event: 0,
        value: 0,
        events: 0,
        taken: 0,
        count: 0,
        end,
        signalled: file.position,
    }
}

// The line view in numbers: where it lies, in the text or in the marker text.
pub fn transput_line_view(
    file: &File,
    end: Position,
    page: usize,
    line: usize,
    book: &BookRef,
    marker: &[u8],
) -> ViewPlace
    ensures { Viewed page line marker.now file.now (shared_book book.now end) result }
{
    views::view_place(*file, end, page, line, book, marker)
}

// The line view: a part of the text or of the marker text.
pub fn line_view<'f, 'a>(
    file: &'f File,
    end: Position,
    page: usize,
    line: usize,
    text: &'a [u8],
    lines: &[u8],
    pages: &[u8],
    marker: &'a [u8],
) -> &'a [u8]
    ensures { view_after result.now file.now (book text.now lines.now pages.now end) ≡ call (plain (views page line marker.now)) file.now (book text.now lines.now pages.now end) }
{
    views::line_view(*file, end, page, line, text, lines, pages, marker)
}

// The spans on which the shown texts of two books differ, written to a lent list, four bytes a span.
pub fn transput_differ(
    file: &File,
    other_file: &File,
    end: Position,
    book: &BookRef,
    other_end: Position,
    other_book: &BookRef,
    list: &mut [u8],
) -> Differences
    ensures { compared (shared_book book.now end) (shared_book other_book.now other_end) (answer result.number result.count list.new) ≡ differ file.now (shared_book book.now end) other_file.now (shared_book other_book.now other_end) list.old }
{
    differs::differ(*file, *other_file, end, book, other_end, other_book, list)
}

// How many such spans there are.
pub fn transput_difference_count(
    file: &File,
    other_file: &File,
    end: Position,
    book: &BookRef,
    other_end: Position,
    other_book: &BookRef,
) -> Differences
    ensures { compared (shared_book book.now end) (shared_book other_book.now other_end) (answer result.number result.count []) ≡ difference_count file.now (shared_book book.now end) other_file.now (shared_book other_book.now other_end) }
{
    differs::difference_count(*file, *other_file, end, book, other_end, other_book)
}

// whole(v, w) at the start of a lent output.
pub fn transput_whole(v: i32, w: i32, output: &mut [u8]) -> Wrote
    ensures { record { number = result.number; count = result.count; buffer = output.new } ≡ whole v w output.old }
{
    whole::whole(v, w, output)
}
