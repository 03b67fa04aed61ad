// Where two books differ: the spans of the shown texts, counted and listed. Each call answers every record, book and list.
#![tactic(auto)]

ghost use Rattle.std.specs.Prelude.{◌≡◌, true, [], ◌∷◌, ◌≤◌, ◌^◌, max, length, IfSome};
ghost use Rattle.places.specs.Lent.{shared_book};
ghost use Rattle.views.specs.Checked.{state_of};
ghost use Rattle.differences.specs.Spans.{place_differs, span, runs, line_at};
ghost use Rattle.differences.specs.Compare.{answer, compared, differ, difference_count};
ghost use Rattle.differs.specs.Tally.{tally, walked, Bytes, Stretch, Noted, line_of};
ghost use Rattle.differs.specs.Books.{both, line_spans_of, page_spans_of, spans_of, answer_of, listed_or_short, differences_of};

use places::BookRef;
use rules::{File, Position, Refusal};
use views::CheckedBook;

// "A place differs when the characters do, or when only one book shows one there."
pub fn differs_at(xs: &[u8], ys: &[u8], place: usize) -> bool
    requires { 1 ≤ place }
    ensures { result ≡ place_differs xs.now ys.now place }
{
    xs.get(place - 1) != ys.get(place - 1)
}

// The last place of the run of differing places that begins at one.
pub fn run_last(xs: &[u8], ys: &[u8], first: usize) -> usize
    requires le_first { (1 ≤ first) × (length xs.now ≤ 255) × (length ys.now ≤ 255) }
    requires first_differs { place_differs xs.now ys.now first ≡ true }
    ensures run { Stretch (place_differs xs.now ys.now) first result }
    ensures in_line { result ≤ max (length xs.now) (length ys.now) }
{
    let limit = xs.len().max(ys.len());
    let next = (first + 1..limit + 1)
        .find(|place| !differs_at(xs, ys, *place))
        .unwrap_or(limit + 1);
    next - 1
}

// The spans counted so far, and the lent list with those that it has room for.
#[derive(Drop)]
pub struct Tally<'a> {
    pub list: &'a mut [u8],
    pub count: usize,
}

impl Tally<'_> {
    // One span more: counted, and written where the list has room for it. Its numbers are bytes: `try_from` would add arms that no call
    // reaches.
    pub fn note(&mut self, page: usize, line: usize, first: usize, last: usize)
        requires count_bound { self.old.count ≤ 2 ^ 30 }
        requires bytes { Bytes (span page line first last) }
        ensures { Noted 1 (span page line first last ∷ []) self.old self.new }
    {
        let at = self.count * 4;
        if at + 4 <= self.list.len() {
            self.list[at..at + 4].copy_from_slice(&[
                page as u8,
                line as u8,
                first as u8,
                last as u8,
            ]);
        }
        self.count += 1;
    }

    // The spans of a line that both books show. A `for` is no plainer here: a step goes past a whole run, so the place is counted by hand.
    #[tactic(auto, using(crate::proofs::Walks::past_run, crate::proofs::Walks::past_agree, crate::proofs::Walks::past_last))]
    pub fn note_runs(&mut self, page: usize, line: usize, xs: &[u8], ys: &[u8])
        requires xs_len_bound { (length xs.now ≤ 255) × (length ys.now ≤ 255) }
        requires count_bound { (self.old.count ≤ 2 ^ 29) × (page ≤ 255) × (line ≤ 255) }
        ensures { Noted 255 (runs page line (place_differs xs.now ys.now) 1 (max (length xs.now) (length ys.now))) self.old self.new }
    {
        let limit = xs.len().max(ys.len());
        let mut place = 1;
        while place <= limit {
            if differs_at(xs, ys, place) {
                let last = run_last(xs, ys, place);
                self.note(page, line, place, last);
                place = last + 1;
            } else {
                place += 1;
            }
        }
    }
}

// The characters of a line, if the book shows it.
#[tactic(auto, using(crate::proofs::Lines::line_in))]
pub fn shown_line<'a>(checked: &CheckedBook<'a>, page: usize, line: usize) -> Option<&'a [u8]>
    ensures line { line_of result ≡ line_at page line (state_of checked.now) checked.now.book.text.now }
    ensures short { IfSome result (λ xs. length xs.now ≤ 255) }
{
    let span = checked.line_span(page, line)?;
    Some(&checked.book.text[span.from..span.from + span.count])
}

// Two books that may be compared.
#[derive(Clone, Copy)]
pub struct Books<'a> {
    pub first: CheckedBook<'a>,
    pub second: CheckedBook<'a>,
}

impl<'a> Books<'a> {
    // Both books, or the first test that fails: 1 of either record, then 3 of either book.
    pub fn both(
        first: Result<CheckedBook<'a>, Refusal>,
        second: Result<CheckedBook<'a>, Refusal>,
    ) -> Result<Books<'a>, Refusal>
        ensures { result ≡ both first.entry second.entry }
    {
        match (first, second) {
            (Err(Refusal::NotOpen), _) | (_, Err(Refusal::NotOpen)) => Err(Refusal::NotOpen),
            (first, second) => Ok(Books {
                first: first?,
                second: second?,
            }),
        }
    }

    // The spans of one line: none, one where a single book shows it, or those of the places where both do.
    pub fn note_line(&self, tally: &mut Tally, page: usize, line: usize)
        requires { (tally.old.count ≤ 2 ^ 29) × (page ≤ 255) × (line ≤ 255) }
        ensures { Noted 255 (line_spans_of self.now page line) tally.old tally.new }
    {
        match (
            shown_line(&self.first, page, line),
            shown_line(&self.second, page, line),
        ) {
            (None, None) => {}
            (Some(xs), None) => tally.note(page, line, 1, xs.len()),
            (None, Some(ys)) => tally.note(page, line, 1, ys.len()),
            (Some(xs), Some(ys)) => tally.note_runs(page, line, xs, ys),
        }
    }

    // The spans of one page, line by line, up to the larger number of lines.
    pub fn note_page(&self, tally: &mut Tally, page: usize)
        requires { (tally.old.count ≤ 2 ^ 28) × (page ≤ 255) }
        ensures { Noted 65025 (page_spans_of self.now page) tally.old tally.new }
    {
        let here = self.first.run.file.shape;
        let there = self.second.run.file.shape;
        for line in 1..=here.lines.max(there.lines) {
            self.note_line(tally, page, line);
        }
    }

    // The spans of all pages, page by page, up to the larger number of pages.
    pub fn note_pages(&self, tally: &mut Tally)
        requires { tally.old.count ≤ 2 ^ 27 }
        ensures { Noted 16581375 (spans_of self.now) tally.old tally.new }
    {
        let here = self.first.run.file.shape;
        let there = self.second.run.file.shape;
        for page in 1..=here.pages.max(there.pages) {
            self.note_page(tally, page);
        }
    }

    // The spans of the books: how many there are, and in the list those that it has room for.
    pub fn note_book(&self, list: &mut [u8]) -> usize
        ensures { tally result list.new ≡ walked (spans_of self.now) (tally 0 list.old) }
    {
        let mut tally = Tally { list, count: 0 };
        self.note_pages(&mut tally);
        tally.count
    }

    // How many spans there are, counted over an empty list, which has room for none.
    pub fn count(&self) -> usize
        ensures { result ≡ length (spans_of self.now) }
    {
        self.note_book(&mut [])
    }

    // The list of the spans, and how many there are; 12, and nothing written, where it is too short.
    pub fn list(&self, list: &mut [u8]) -> Result<usize, Refusal>
        ensures { answer_of result list.new ≡ listed_or_short (spans_of self.now) list.old }
    {
        if list.len() / 4 < self.count() {
            return Err(Refusal::OutputTooShort);
        }
        Ok(self.note_book(list))
    }
}

// What is handed back: the number, and how many spans there are. Two numbers side by side: it is a type of the C interface.
#[repr(C)]
#[derive(Clone, Copy)]
pub struct Differences {
    pub number: u8,
    pub count: usize,
}

impl From<Result<usize, Refusal>> for Differences {
    ghost from_gives = { λ outcome differences. differences ≡ differences_of outcome };

    fn from(outcome: Result<usize, Refusal>) -> Differences {
        match outcome {
            Ok(count) => Differences { number: 0, count },
            Err(refusal) => Differences {
                number: refusal.number(),
                count: 0,
            },
        }
    }
}

// How many spans there are. The parameters come in the order of the C interface.
pub fn difference_count(
    file: File,
    other_file: File,
    end: Position,
    book: &BookRef,
    other_end: Position,
    other_book: &BookRef,
) -> Differences
    ensures { compared (shared_book book.now end) (shared_book other_book.now other_end) (answer result.number result.count []) ≡ difference_count file (shared_book book.now end) other_file (shared_book other_book.now other_end) }
{
    let run = entry::start(file, end);
    let other = entry::start(other_file, other_end);
    let first = CheckedBook::check(run, *book);
    let second = CheckedBook::check(other, *other_book);
    let counted = Books::both(first, second).map(|books| books.count());
    Differences::from(counted)
}

// The list of the spans, and how many there are, or the refusal. The parameters come as those of `differ`.
pub fn list_differences(
    file: File,
    other_file: File,
    end: Position,
    book: &BookRef,
    other_end: Position,
    other_book: &BookRef,
    list: &mut [u8],
) -> Result<usize, Refusal>
    ensures { compared (shared_book book.now end) (shared_book other_book.now other_end) (answer_of result list.new) ≡ differ file (shared_book book.now end) other_file (shared_book other_book.now other_end) list.old }
{
    let run = entry::start(file, end);
    let other = entry::start(other_file, other_end);
    let first = CheckedBook::check(run, *book);
    let second = CheckedBook::check(other, *other_book);
    Books::both(first, second)?.list(list)
}

// The list of the spans. The parameters come in the order of the C interface, with the list that is lent.
pub fn differ(
    file: File,
    other_file: File,
    end: Position,
    book: &BookRef,
    other_end: Position,
    other_book: &BookRef,
    list: &mut [u8],
) -> Differences
    ensures { compared (shared_book book.now end) (shared_book other_book.now other_end) (answer result.number result.count list.new) ≡ differ file (shared_book book.now end) other_file (shared_book other_book.now other_end) list.old }
{
    let listed = list_differences(file, other_file, end, book, other_end, other_book, list);
    Differences::from(listed)
}
