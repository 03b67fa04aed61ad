// The C library: the calls of the thin layer under the names of include/transput.h, each with the contract that it has there.
#![tactic(auto)]

ghost use Rattle.std.specs.Prelude.{◌≡◌, []};
ghost use Rattle.rules.specs.Whole.{whole};
ghost use Rattle.rules.specs.Calls.{book, call, plain, asking, establishes, opens, closes, chooses, resets, backspaces, views, view_numbers, puts_character, puts_string, puts_integer, gets_character, gets_string, gets_integer, spaces, newlines, newpages, sets, sets_character_number};
ghost use Rattle.views.specs.Spans.{view_after, Viewed};
ghost use Rattle.numbers.specs.Numbers.{after_numbers};
ghost use Rattle.differences.specs.Compare.{answer, compared, differ, difference_count};

use differs::Differences;
use numbers::CallResult;
use places::{BookMut, BookRef};
use rules::{File, Position};
use views::ViewPlace;
use whole::Wrote;

// Establishes a book over lent memory: every length full, and no character wiped.
#[unsafe(no_mangle)]
pub extern "C" fn transput_establish(
    file: &mut File,
    end: Position,
    text: &[u8],
    lines: &mut [u8],
    pages: &mut [u8],
) -> CallResult
    ensures { after_numbers file.new result [] text.now lines.new pages.new ≡ call (plain establishes) file.old (book text.now lines.old pages.old end) }
{
    transput::transput_establish(file, end, text, lines, pages)
}

// Opens a book with the logical end that it has.
#[unsafe(no_mangle)]
pub extern "C" fn transput_open(
    file: &mut File,
    end: Position,
    text: &[u8],
    lines: &[u8],
    pages: &[u8],
) -> CallResult
    ensures { after_numbers file.new result [] text.now lines.now pages.now ≡ call (plain opens) file.old (book text.now lines.now pages.now end) }
{
    transput::transput_open(file, end, &BookRef { text, lines, pages })
}

// Closes the record.
#[unsafe(no_mangle)]
pub extern "C" fn transput_close(
    file: &mut File,
    end: Position,
    text: &[u8],
    lines: &[u8],
    pages: &[u8],
) -> CallResult
    ensures { after_numbers file.new result [] text.now lines.now pages.now ≡ call (plain closes) file.old (book text.now lines.now pages.now end) }
{
    transput::transput_close(file, end, &BookRef { text, lines, pages })
}

// Chooses what becomes of a string that does not fit on its line: the Report's split, or refusal 16.
#[unsafe(no_mangle)]
pub extern "C" fn transput_choose(
    file: &mut File,
    end: Position,
    split: bool,
    text: &[u8],
    lines: &[u8],
    pages: &[u8],
) -> CallResult
    ensures { after_numbers file.new result [] text.now lines.now pages.now ≡ call (plain (chooses split)) file.old (book text.now lines.now pages.now end) }
{
    transput::transput_choose(file, end, split, &BookRef { text, lines, pages })
}

// Resets the record: its moods by its rights, at (1,1,1).
#[unsafe(no_mangle)]
pub extern "C" fn transput_reset(
    file: &mut File,
    end: Position,
    text: &[u8],
    lines: &[u8],
    pages: &[u8],
) -> CallResult
    ensures { after_numbers file.new result [] text.now lines.now pages.now ≡ call (plain resets) file.old (book text.now lines.now pages.now end) }
{
    transput::transput_reset(file, end, &BookRef { text, lines, pages })
}

// Backspaces: one character back on the line.
#[unsafe(no_mangle)]
pub extern "C" fn transput_backspace(
    file: &mut File,
    end: Position,
    text: &[u8],
    lines: &[u8],
    pages: &[u8],
) -> CallResult
    ensures { after_numbers file.new result [] text.now lines.now pages.now ≡ call (plain backspaces) file.old (book text.now lines.now pages.now end) }
{
    transput::transput_backspace(file, end, &BookRef { text, lines, pages })
}

// Puts a character.
#[unsafe(no_mangle)]
pub extern "C" fn transput_put_character(
    file: &mut File,
    end: Position,
    b: u8,
    text: &mut [u8],
    lines: &mut [u8],
    pages: &mut [u8],
    row: &[u32],
) -> CallResult
    ensures { after_numbers file.new result [] text.new lines.new pages.new ≡ call (asking (puts_character b) row.now) file.old (book text.old lines.old pages.old end) }
{
    transput::transput_put_character(file, end, b, &mut BookMut { text, lines, pages }, row)
}

// Puts the characters of a string in turn.
#[unsafe(no_mangle)]
pub extern "C" fn transput_put_string(
    file: &mut File,
    end: Position,
    bytes: &[u8],
    text: &mut [u8],
    lines: &mut [u8],
    pages: &mut [u8],
    row: &[u32],
) -> CallResult
    ensures { after_numbers file.new result [] text.new lines.new pages.new ≡ call (asking (puts_string bytes.now) row.now) file.old (book text.old lines.old pages.old end) }
{
    transput::transput_put_string(file, end, bytes, &mut BookMut { text, lines, pages }, row)
}

// Puts an integer: a blank where the line has begun, then whole(v, 11).
#[unsafe(no_mangle)]
pub extern "C" fn transput_put_integer(
    file: &mut File,
    end: Position,
    v: i32,
    text: &mut [u8],
    lines: &mut [u8],
    pages: &mut [u8],
    row: &[u32],
) -> CallResult
    ensures { after_numbers file.new result [] text.new lines.new pages.new ≡ call (asking (puts_integer v) row.now) file.old (book text.old lines.old pages.old end) }
{
    transput::transput_put_integer(file, end, v, &mut BookMut { text, lines, pages }, row)
}

// Gets a character.
#[unsafe(no_mangle)]
pub extern "C" fn transput_get_character(
    file: &mut File,
    end: Position,
    text: &mut [u8],
    lines: &mut [u8],
    pages: &mut [u8],
    row: &[u32],
) -> CallResult
    ensures { after_numbers file.new result [] text.new lines.new pages.new ≡ call (asking gets_character row.now) file.old (book text.old lines.old pages.old end) }
{
    transput::transput_get_character(file, end, &mut BookMut { text, lines, pages }, row)
}

// Gets a string into the lent output.
#[unsafe(no_mangle)]
pub extern "C" fn transput_get_string(
    file: &mut File,
    end: Position,
    terminators: &[u8],
    output: &mut [u8],
    text: &mut [u8],
    lines: &mut [u8],
    pages: &mut [u8],
    row: &[u32],
) -> CallResult
    ensures { after_numbers file.new result output.new text.new lines.new pages.new ≡ call (asking (gets_string terminators.now output.old) row.now) file.old (book text.old lines.old pages.old end) }
{
    transput::transput_get_string(
        file,
        end,
        terminators,
        output,
        &mut BookMut { text, lines, pages },
        row,
    )
}

// Gets an integer.
#[unsafe(no_mangle)]
pub extern "C" fn transput_get_integer(
    file: &mut File,
    end: Position,
    text: &mut [u8],
    lines: &mut [u8],
    pages: &mut [u8],
    row: &[u32],
) -> CallResult
    ensures { after_numbers file.new result [] text.new lines.new pages.new ≡ call (asking gets_integer row.now) file.old (book text.old lines.old pages.old end) }
{
    transput::transput_get_integer(file, end, &mut BookMut { text, lines, pages }, row)
}

// Space: past a character, reading; a blank put, writing past the end of what is written.
#[unsafe(no_mangle)]
pub extern "C" fn transput_space(
    file: &mut File,
    end: Position,
    text: &mut [u8],
    lines: &mut [u8],
    pages: &mut [u8],
    row: &[u32],
) -> CallResult
    ensures { after_numbers file.new result [] text.new lines.new pages.new ≡ call (asking spaces row.now) file.old (book text.old lines.old pages.old end) }
{
    transput::transput_space(file, end, &mut BookMut { text, lines, pages }, row)
}

// Newline: to the start of the next line.
#[unsafe(no_mangle)]
pub extern "C" fn transput_newline(
    file: &mut File,
    end: Position,
    text: &mut [u8],
    lines: &mut [u8],
    pages: &mut [u8],
    row: &[u32],
) -> CallResult
    ensures { after_numbers file.new result [] text.new lines.new pages.new ≡ call (asking newlines row.now) file.old (book text.old lines.old pages.old end) }
{
    transput::transput_newline(file, end, &mut BookMut { text, lines, pages }, row)
}

// Newpage: to the start of the next page.
#[unsafe(no_mangle)]
pub extern "C" fn transput_newpage(
    file: &mut File,
    end: Position,
    text: &mut [u8],
    lines: &mut [u8],
    pages: &mut [u8],
    row: &[u32],
) -> CallResult
    ensures { after_numbers file.new result [] text.new lines.new pages.new ≡ call (asking newpages row.now) file.old (book text.old lines.old pages.old end) }
{
    transput::transput_newpage(file, end, &mut BookMut { text, lines, pages }, row)
}

// Set: to a place in the book.
#[unsafe(no_mangle)]
pub extern "C" fn transput_set(
    file: &mut File,
    end: Position,
    to: Position,
    text: &mut [u8],
    lines: &mut [u8],
    pages: &mut [u8],
    row: &[u32],
) -> CallResult
    ensures { after_numbers file.new result [] text.new lines.new pages.new ≡ call (asking (sets to) row.now) file.old (book text.old lines.old pages.old end) }
{
    transput::transput_set(file, end, to, &mut BookMut { text, lines, pages }, row)
}

// Set char number: to a place on the line.
#[unsafe(no_mangle)]
pub extern "C" fn transput_set_character_number(
    file: &mut File,
    end: Position,
    n: usize,
    text: &mut [u8],
    lines: &mut [u8],
    pages: &mut [u8],
    row: &[u32],
) -> CallResult
    ensures { after_numbers file.new result [] text.new lines.new pages.new ≡ call (asking (sets_character_number n) row.now) file.old (book text.old lines.old pages.old end) }
{
    transput::transput_set_character_number(file, end, n, &mut BookMut { text, lines, pages }, row)
}

// The number of a line view, asked for apart.
#[unsafe(no_mangle)]
pub extern "C" fn transput_view_number(
    file: &File,
    end: Position,
    page: usize,
    line: usize,
    text: &[u8],
    lines: &[u8],
    pages: &[u8],
) -> CallResult
    ensures { after_numbers file.now result [] text.now lines.now pages.now ≡ call (plain (view_numbers page line)) file.now (book text.now lines.now pages.now end) }
{
    transput::transput_view_number(file, end, page, line, &BookRef { text, lines, pages })
}

// The line view in numbers: where it lies, in the text or in the marker text.
#[unsafe(no_mangle)]
pub extern "C" fn transput_line_view(
    file: &File,
    end: Position,
    page: usize,
    line: usize,
    text: &[u8],
    lines: &[u8],
    pages: &[u8],
    marker: &[u8],
) -> ViewPlace
    ensures { Viewed page line marker.now file.now (book text.now lines.now pages.now end) result }
{
    transput::transput_line_view(
        file,
        end,
        page,
        line,
        &BookRef { text, lines, pages },
        marker,
    )
}

// The spans on which the shown texts of two books differ, written to a lent list, four bytes a span.
#[unsafe(no_mangle)]
pub extern "C" fn transput_differ(
    file: &File,
    other_file: &File,
    end: Position,
    text: &[u8],
    lines: &[u8],
    pages: &[u8],
    other_end: Position,
    other_text: &[u8],
    other_lines: &[u8],
    other_pages: &[u8],
    list: &mut [u8],
) -> Differences
    ensures { compared (book text.now lines.now pages.now end) (book other_text.now other_lines.now other_pages.now other_end) (answer result.number result.count list.new) ≡ differ file.now (book text.now lines.now pages.now end) other_file.now (book other_text.now other_lines.now other_pages.now other_end) list.old }
{
    transput::transput_differ(
        file,
        other_file,
        end,
        &BookRef { text, lines, pages },
        other_end,
        &BookRef {
            text: other_text,
            lines: other_lines,
            pages: other_pages,
        },
        list,
    )
}

// How many such spans there are.
#[unsafe(no_mangle)]
pub extern "C" fn transput_difference_count(
    file: &File,
    other_file: &File,
    end: Position,
    text: &[u8],
    lines: &[u8],
    pages: &[u8],
    other_end: Position,
    other_text: &[u8],
    other_lines: &[u8],
    other_pages: &[u8],
) -> Differences
    ensures { compared (book text.now lines.now pages.now end) (book other_text.now other_lines.now other_pages.now other_end) (answer result.number result.count []) ≡ difference_count file.now (book text.now lines.now pages.now end) other_file.now (book other_text.now other_lines.now other_pages.now other_end) }
{
    transput::transput_difference_count(
        file,
        other_file,
        end,
        &BookRef { text, lines, pages },
        other_end,
        &BookRef {
            text: other_text,
            lines: other_lines,
            pages: other_pages,
        },
    )
}

// whole(v, w) at the start of a lent output.
#[unsafe(no_mangle)]
pub extern "C" fn transput_whole(v: i32, w: i32, output: &mut [u8]) -> Wrote
    ensures { record { number = result.number; count = result.count; buffer = output.new } ≡ whole v w output.old }
{
    transput::transput_whole(v, w, output)
}
