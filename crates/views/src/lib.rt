// The line view and its number. Each answers every record, book and place; what it hands back is what `call` says.
#![tactic(auto)]

ghost use Rattle.std.specs.Prelude.{◌≡◌, [], ◌≤◌, length};
ghost use Rattle.rules.specs.Book.{state};
ghost use Rattle.places.specs.Lent.{shared_book, after_shared};
ghost use Rattle.rules.specs.Calls.{book, call, plain, views, view_numbers, shown, shown_length};
ghost use Rattle.places.specs.Small.{Small};
ghost use Rattle.views.specs.Spans.{span_of, view_after, view_place, Viewed};

mod checked;

pub use checked::CheckedBook;
use places::BookRef;
use rules::{File, Position, Refusal, Reply, Run};

// "a shown line (there in its page, and not after the logical end's line ..)".
#[tactic(auto, unfolding(rules::specs::Calls::shown, rules::specs::Book::within))]
pub fn is_shown(run: Run, page: usize, line: usize, book: &BookRef) -> bool
    ensures { result ≡ shown page line (state run book.now.lines.now book.now.pages.now) }
{
    let last = Position {
        character: 1,
        ..run.end
    };
    let at = Position {
        page,
        line,
        character: 1,
    };
    1 <= page
        && 1 <= line
        && line <= places::page_length(book.pages, page)
        && !places::is_before(last, at)
}

// How many characters of a line are shown: "up to that end".
#[tactic(auto, unfolding(rules::specs::Calls::shown_length))]
pub fn shown_length(run: Run, page: usize, line: usize, book: &BookRef) -> usize
    requires small { Small run.file.shape page line }
    requires le_character { 1 ≤ run.end.character }
    ensures { result ≡ shown_length page line (state run book.now.lines.now book.now.pages.now) }
{
    if page == run.end.page && line == run.end.line {
        run.end.character - 1
    } else {
        book.line_length(run.file.shape, page, line)
    }
}

// Where a shown line lies in the text: the index and the count of its shown characters.
#[derive(Clone, Copy)]
pub struct Span {
    pub from: usize,
    pub count: usize,
}

// The tests of a view, 1, 3 and 6, and the line's span. It is part of each caller, so that no record is copied.
#[inline(always)]
pub fn span_of(run: Run, page: usize, line: usize, book: &BookRef) -> Result<Span, Refusal>
    ensures { result ≡ span_of page line (length book.now.text.now) (state run book.now.lines.now book.now.pages.now) }
{
    let checked = CheckedBook::check(run, *book)?;
    checked.line_span(page, line).ok_or(Refusal::OutOfRange)
}

// The number of a line view, asked for apart.
pub fn view_number(file: File, end: Position, page: usize, line: usize, book: &BookRef) -> Reply
    ensures { after_shared result [] book.now ≡ call (plain (view_numbers page line)) file (shared_book book.now end) }
{
    let start = entry::start(file, end);
    match span_of(start, page, line, book) {
        Ok(_) => entry::ended(Ok(start)),
        Err(refusal) => entry::refuse(start, refusal),
    }
}

// Where what a view hands back lies, and its number: in the marker text or in the text, from an index on, and how many characters. Its
// fields stand side by side: it is a type of the C interface.
#[repr(C)]
#[derive(Clone, Copy)]
pub struct ViewPlace {
    pub number: u8,
    pub marker: bool,
    pub from: usize,
    pub count: usize,
}

impl ViewPlace {
    // A view by its numbers.
    pub fn new(number: u8, marker: bool, from: usize, count: usize) -> ViewPlace
        ensures { result ≡ view_place number marker from count }
    {
        ViewPlace {
            number,
            marker,
            from,
            count,
        }
    }
}

// The line view in numbers: a shown line in the text; the whole marker where it is empty, and no part of it where it is refused. It is
// part of each caller too.
#[inline(always)]
pub fn view_place(
    file: File,
    end: Position,
    page: usize,
    line: usize,
    book: &BookRef,
    marker: &[u8],
) -> ViewPlace
    ensures { Viewed page line marker.now file (shared_book book.now end) result }
{
    let start = entry::start(file, end);
    match span_of(start, page, line, book) {
        Err(refusal) => ViewPlace::new(refusal.number(), true, 0, 0),
        Ok(span) if span.count == 0 => ViewPlace::new(0, true, 0, marker.len()),
        Ok(span) => ViewPlace::new(0, false, span.from, span.count),
    }
}

// The line view: the part of the text that holds a shown line; the marker where it is empty, and no part of it where it is refused.
// Its text alone has the lifetime of what it hands back, so it takes no `BookRef`, which has one lifetime for all three.
pub fn line_view<'a>(
    file: File,
    end: Position,
    page: usize,
    line: usize,
    text: &'a [u8],
    lines: &[u8],
    pages: &[u8],
    marker: &'a [u8],
) -> &'a [u8]
    ensures { view_after result.now file (book text.now lines.now pages.now end) ≡ call (plain (views page line marker.now)) file (book text.now lines.now pages.now end) }
{
    let book = BookRef { text, lines, pages };
    let place = view_place(file, end, page, line, &book, marker);
    let from = place.from;
    let to = from + place.count;
    if place.marker {
        &marker[from..to]
    } else {
        &text[from..to]
    }
}
