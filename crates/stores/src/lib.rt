// What changes the lent characters and lengths: a character or a run of them stored, blanks, and the writing ends of a line and
// of a page.
#![tactic(auto)]

ghost use Rattle.std.specs.Prelude.{◌≡◌, ◌+◌, ◌≤◌, ◌<◌, ◌^◌, length, set};
ghost use Rattle.rules.specs.Book.{place, lengths, character_index, state};
ghost use Rattle.places.specs.Lent.{state_over, SameMemory};
ghost use Rattle.rules.specs.Step.{done, goes_back, end_after, all_from, lengths_after, blanks, blank_line, blank_lines, fill_page, end_line, end_page};
ghost use Rattle.std.proofs.lemmas.List.Edits.{sets};
ghost use Rattle.laws.specs.Runs.{stored_by};
ghost use Rattle.places.specs.Small.{Small};

use places::BookMut;
use rules::{Position, Run, Shape};

// Stores a byte, if its place is there. By `get_mut` no proof closes: its contract leaves open what the slice is afterwards.
pub fn store_byte(bytes: &mut [u8], i: usize, b: u8)
    ensures { bytes.new ≡ set bytes.old i b }
{
    if i < bytes.len() {
        bytes[i] = b;
    }
}

// Stores a run of bytes from an index on. It is no `copy_from_slice`: by that the library for C would need one more function from outside.
pub fn store_run(text: &mut [u8], at: usize, bytes: &[u8])
    requires { at + length bytes.now ≤ length text.old }
    ensures { text.new ≡ sets text.old at bytes.now }
{
    for (i, byte) in bytes.iter().enumerate() {
        text[at + i] = *byte;
    }
}

// Writes some blanks from an index on, as far as the text goes: no caller knows the text's size, so none could cut it to that part.
pub fn blank(text: &mut [u8], from: usize, count: usize)
    requires { (from < 2 ^ 32) × (count < 2 ^ 32) }
    ensures { text.new ≡ blanks count from text.old }
{
    let to = (from + count).min(text.len());
    if from < to {
        text[from..to].fill(b' ');
    }
}

// Stores a length, if its place is there. It is a byte: `try_from` would add an arm that no call reaches.
pub fn put_length(lengths: &mut [u8], i: usize, n: usize)
    requires { n ≤ 255 }
    ensures { lengths.new ≡ set lengths.old i n }
{
    store_byte(lengths, i, n as u8);
}

// Blanks a line from a character on, to its own length. The lengths are only read, so they need not be lent to be changed.
#[tactic(auto, unfolding(rules::specs::Step::blank_line))]
pub fn blank_line(
    shape: Shape,
    text: &mut [u8],
    lines: &[u8],
    pages: &[u8],
    page: usize,
    line: usize,
    character: usize,
)
    requires small { Small shape page line }
    requires le_character { (1 ≤ character) × (character ≤ 256) }
    ensures { text.new ≡ blank_line shape (lengths lines.now pages.now) (place page line character) text.old }
{
    let size = places::line_length(shape, lines, pages, page, line);
    let from = places::character_index(shape, page, line, character);
    blank(text, from, (size + 1).saturating_sub(character));
}

// Blanks some lines of a page.
pub fn blank_lines(
    shape: Shape,
    text: &mut [u8],
    lines: &[u8],
    pages: &[u8],
    count: usize,
    page: usize,
    line: usize,
)
    requires small { Small shape page 1 }
    requires le_line { (1 ≤ line) × (line + count ≤ 257) }
    ensures { text.new ≡ blank_lines shape (lengths lines.now pages.now) count page line text.old }
{
    for next in line..line + count {
        blank_line(shape, text, lines, pages, page, next, 1);
    }
}

// Whether the logical end, which x is not beyond, goes back to x.
#[tactic(auto, unfolding(rules::specs::Book::before))]
pub fn goes_back(set: bool, end: Position, x: Position) -> bool
    ensures { result ≡ goes_back «set» end x }
{
    let start = Position {
        character: 1,
        ..end
    };
    !set && x < start
}

// The logical end after the position came to x.
#[tactic(auto, unfolding(rules::specs::Book::before))]
pub fn end_after(set: bool, end: Position, x: Position) -> Position
    ensures { result ≡ end_after «set» end x }
{
    if end < x || goes_back(set, end, x) {
        x
    } else {
        end
    }
}

// Makes every length from an index on the same, as far as the slice goes: no caller knows its size. The length is a byte, as in
// `put_length`. It is seldom called, and what calls it stays small without its body.
#[tactic(auto, unfolding(rules::specs::Step::all_from))]
#[inline(never)]
pub fn all_from(lengths: &mut [u8], from: usize, n: usize)
    requires { n ≤ 255 }
    ensures { lengths.new ≡ all_from from n lengths.old }
{
    if from < lengths.len() {
        lengths[from..].fill(n as u8);
    }
}

// "At that moment in a compressible book" the line of the new end, the later lines, its page and the later pages are as established.
pub fn restore(run: Run, x: Position, lines: &mut [u8], pages: &mut [u8])
    requires { Small run.file.shape x.page x.line }
    ensures { lengths lines.new pages.new ≡ lengths_after run.file.shape run.file.rights run.end x (lengths lines.old pages.old) }
{
    let end = run.end;
    if !run.file.rights.compress
        || places::is_before(end, x)
        || !goes_back(run.file.rights.set, end, x)
    {
        return;
    }
    let shape = run.file.shape;
    let i = places::line_index(shape, x.page, x.line);
    all_from(lines, i, shape.characters);
    all_from(pages, x.page - 1, shape.lines);
}

// The running call, and the lengths, after some characters were stored on its line. It is part of each caller, so that no record is copied.
#[inline(always)]
pub fn stored(run: Run, count: usize, lines: &mut [u8], pages: &mut [u8]) -> Run
    requires small { Small run.file.shape run.file.position.page run.file.position.line }
    requires count_bound { run.file.position.character + count < 2 ^ 32 }
    ensures { state result lines.new pages.new ≡ stored_by count (state run lines.old pages.old) }
{
    let x = Position {
        character: run.file.position.character + count,
        ..run.file.position
    };
    restore(run, x, lines, pages);
    let mut next = run;
    next.file.position = x;
    next.end = end_after(run.file.rights.set, run.end, x);
    next
}

// "Store it, c+1", and the logical end's rule. It is part of each caller too.
#[inline(always)]
pub fn store_character(run: Run, book: &mut BookMut, b: u8) -> Run
    requires small { Small run.file.shape run.file.position.page run.file.position.line }
    requires le_character { (1 ≤ run.file.position.character) × (run.file.position.character ≤ 256) }
    ensures memory { SameMemory book.old book.new }
    ensures stored { (state_over result book.new ≡ stored_by 1 (state_over run book.old)) × (book.new.text.now ≡ set book.old.text.now (character_index run.file.shape run.file.position) b) }
{
    let shape = run.file.shape;
    let i = places::character_index(
        shape,
        run.file.position.page,
        run.file.position.line,
        run.file.position.character,
    );
    store_byte(book.text, i, b);
    stored(run, 1, book.lines, book.pages)
}

// The writing end of a line, with the position at the logical end. The lengths of the pages are only read.
pub fn end_line(run: Run, text: &mut [u8], lines: &mut [u8], pages: &[u8]) -> Run
    requires small { Small run.file.shape run.file.position.page run.file.position.line }
    requires le_character { (1 ≤ run.file.position.character) × (run.file.position.character ≤ 256) }
    ensures { done (tt {0}) (state result lines.new pages.now) text.new ≡ end_line (state run lines.old pages.now) text.old }
{
    let shape = run.file.shape;
    let page = run.file.position.page;
    let line = run.file.position.line;
    let character = run.file.position.character;
    if run.file.rights.compress {
        let i = places::line_index(shape, page, line);
        put_length(lines, i, character - 1);
        return running::both_moved(run, page, line + 1, 1);
    }
    blank_line(shape, text, lines, pages, page, line, character);
    running::both_moved(run, page, line + 1, 1)
}

// The same of a book that is lent as one. The slices are handed on one by one, since no loan of a part to be read goes beside one of
// another part to be changed.
pub fn end_line_in(run: Run, book: &mut BookMut) -> Run
    requires small { Small run.file.shape run.file.position.page run.file.position.line }
    requires le_character { (1 ≤ run.file.position.character) × (run.file.position.character ≤ 256) }
    ensures memory { SameMemory book.old book.new }
    ensures ended { done (tt {0}) (state_over result book.new) book.new.text.now ≡ end_line (state_over run book.old) book.old.text.now }
{
    end_lent_line(run, book.text, book.lines, book.pages)
}

fn end_lent_line(run: Run, text: &mut [u8], lines: &mut [u8], pages: &mut [u8]) -> Run
    requires small { Small run.file.shape run.file.position.page run.file.position.line }
    requires le_character { (1 ≤ run.file.position.character) × (run.file.position.character ≤ 256) }
    ensures { done (tt {0}) (state result lines.new pages.new) text.new ≡ end_line (state run lines.old pages.old) text.old }
{
    end_line(run, text, lines, pages)
}

// The writing end of a page, with the position at the logical end.
pub fn end_page(run: Run, book: &mut BookMut) -> Run
    requires small { Small run.file.shape run.file.position.page run.file.position.line }
    requires le_character { (1 ≤ run.file.position.character) × (run.file.position.character ≤ 256) }
    ensures memory { SameMemory book.old book.new }
    ensures ended { done (tt {0}) (state_over result book.new) book.new.text.now ≡ end_page (state_over run book.old) book.old.text.now }
{
    let shape = run.file.shape;
    let page = run.file.position.page;
    let line = run.file.position.line;
    let character = run.file.position.character;
    if run.file.rights.compress {
        if book.page_ended(run) {
            return running::both_moved(run, page + 1, 1, 1);
        }
        let i = places::line_index(shape, page, line);
        put_length(book.lines, i, character - 1);
        if character == 1 {
            put_length(book.pages, page - 1, line - 1);
            return running::both_moved(run, page + 1, 1, 1);
        }
        put_length(book.pages, page - 1, line);
        return running::both_moved(run, page + 1, 1, 1);
    }
    blank_page(run, book.text, book.lines, book.pages);
    running::both_moved(run, page + 1, 1, 1)
}

// Blanks the rest of the position's line, and the later lines of its page. The lengths are lent as those of the book, and stay. It is
// seldom called, and its loop has the registers for itself where it is no part of its caller.
#[inline(never)]
fn blank_page(run: Run, text: &mut [u8], lines: &mut [u8], pages: &mut [u8])
    requires small { Small run.file.shape run.file.position.page run.file.position.line }
    requires le_character { (1 ≤ run.file.position.character) × (run.file.position.character ≤ 256) }
    ensures { done (tt {0}) (state run lines.new pages.new) text.new ≡ fill_page (state run lines.old pages.old) text.old }
{
    let shape = run.file.shape;
    let page = run.file.position.page;
    let line = run.file.position.line;
    blank_line(
        shape,
        text,
        lines,
        pages,
        page,
        line,
        run.file.position.character,
    );
    let rest = places::page_length(pages, page).saturating_sub(line);
    blank_lines(shape, text, lines, pages, rest, page, line + 1);
}
