// The stage of a script, which is two sides, each a record and a book, and the answers for the next call; and the lines that set it.
#![tactic(auto)]

ghost use Rattle.std.specs.Prelude.{◌≡◌, ◌≤◌, ◌==◌, IfOk, OnErr, count_by, length, not, take};
ghost use Rattle.std.specs.Borrow.{sem};
ghost use Rattle.console.specs.Words.{words_of};
ghost use Rattle.scenes.specs.declared.TheConstants.{TEXT, LINES, PAGES, ROW};
ghost use Rattle.rules.specs.Book.{run_with};
ghost use Rattle.views.specs.Checked.{Checks};

use console::{BadLine, Pairs, Words};
use places::BookRef;
use rules::{Ending, File, Position, Refusal, Rights, Shape};
use views::CheckedBook;

// ---- the stage

// How many bytes, lines and pages a book has memory for, and a row words.
pub const TEXT: usize = 70000;

pub const LINES: usize = 1100;

pub const PAGES: usize = 300;

pub const ROW: usize = 80;

// The most that a line tells of a page, a line or a character.
pub const MOST: usize = 65535;

// The memory of a book: its bytes, the lengths of its lines and of its pages.
#[derive(Clone, Copy)]
pub struct Book {
    pub text: [u8; TEXT],
    pub lines: [u8; LINES],
    pub pages: [u8; PAGES],
}

// How much of a book's memory a call is lent.
#[derive(Clone, Copy)]
pub struct Sizes {
    pub text: usize,
    pub lines: usize,
    pub pages: usize,
    ghost text_fits: { text ≤ TEXT },
    ghost lines_fit: { lines ≤ LINES },
    ghost pages_fit: { pages ≤ PAGES },
}

// A side: a record, and its book with the logical end and the sizes that are lent.
#[derive(Clone, Copy)]
pub struct Side {
    pub file: File,
    pub end: Position,
    pub sizes: Sizes,
    pub book: Book,
}

// The answers for the next call.
#[derive(Clone, Copy)]
pub struct Row {
    pub words: [u32; ROW],
    pub count: usize,
    ghost fits: { count ≤ ROW },
}

// What a call on a side is lent: its record, the logical end, parts of its memory, and answers. The three parts stand side by side, since
// no proof takes a `BookMut` apart out of a struct that is passed by value.
#[derive(Drop)]
pub struct Lent<'a> {
    pub file: File,
    pub end: Position,
    pub text: &'a mut [u8],
    pub lines: &'a mut [u8],
    pub pages: &'a mut [u8],
    pub row: &'a [u32],
}

// What a script plays on: two sides, the answers, and whether the first side is the other one. So an exchange moves no memory.
#[derive(Drop)]
pub struct Stage {
    pub one: Side,
    pub other: Side,
    pub swapped: bool,
    pub row: Row,
}

impl Book {
    // The memory of a book in which nothing is stored.
    fn new() -> Book {
        Book {
            text: [0; TEXT],
            lines: [0; LINES],
            pages: [0; PAGES],
        }
    }
}

impl Side {
    ghost use Rattle.rules.specs.Calls.{call, plain, views, view_numbers};
    ghost use Rattle.views.specs.Spans.{view_after, number_after};
    ghost use Rattle.scenes.specs.Sides.{book_of, number_of, Seen};

    // A side at the start: its book has 2 pages of 3 lines of 8 characters, and its record is not open.
    pub fn new() -> Side {
        let start = Position {
            page: 1,
            line: 1,
            character: 1,
        };
        let shape = Shape {
            pages: 2,
            lines: 3,
            characters: 8,
        };
        let rights = Rights {
            get: true,
            put: true,
            set: false,
            reset: true,
            compress: true,
        };
        let file = File {
            opened: false,
            reading: false,
            writing: false,
            split: false,
            position: start,
            shape,
            rights,
        };
        let sizes = Sizes {
            text: 48,
            lines: 6,
            pages: 2,
        };
        Side {
            file,
            end: start,
            sizes,
            book: Book::new(),
        }
    }

    // The parts of the book that a call is lent, to be read.
    pub fn shared(&self) -> BookRef<'_>
        ensures text { result.text.now ≡ take self.now.sizes.text self.now.book.text }
        ensures lines { result.lines.now ≡ take self.now.sizes.lines self.now.book.lines }
        ensures pages { result.pages.now ≡ take self.now.sizes.pages self.now.book.pages }
    {
        BookRef {
            text: &self.book.text[..self.sizes.text],
            lines: &self.book.lines[..self.sizes.lines],
            pages: &self.book.pages[..self.sizes.pages],
        }
    }

    // What a call is lent, with answers.
    pub fn lent<'a>(&'a mut self, row: &'a [u32]) -> Lent<'a>
        ensures file { result.file ≡ self.old.file }
        ensures end { result.end ≡ self.old.end }
        ensures text { result.text.now ≡ take self.old.sizes.text self.old.book.text }
        ensures lines { result.lines.now ≡ take self.old.sizes.lines self.old.book.lines }
        ensures pages { result.pages.now ≡ take self.old.sizes.pages self.old.book.pages }
        ensures row { result.row.now ≡ row.now }
    {
        let Side {
            file,
            end,
            sizes,
            book,
        } = self;
        let Book { text, lines, pages } = book;
        Lent {
            file: *file,
            end: *end,
            text: &mut text[..sizes.text],
            lines: &mut lines[..sizes.lines],
            pages: &mut pages[..sizes.pages],
            row,
        }
    }

    // The book over the parts that a call is lent, tested as a call tests it.
    pub fn checked(&self) -> Result<CheckedBook<'_>, Refusal>
        ensures { Checks (run_with self.now.file self.now.end 0 0) (take self.now.sizes.text self.now.book.text) (take self.now.sizes.lines self.now.book.lines) (take self.now.sizes.pages self.now.book.pages) result }
    {
        let run = entry::start(self.file, self.end);
        CheckedBook::check(run, self.shared())
    }

    // The line view as the call gives it: no part of the marker where the line is not shown.
    pub fn line_view<'a>(&'a self, page: usize, line: usize, marker: &'a [u8]) -> &'a [u8]
        ensures { view_after result.now self.now.file (book_of self.now) ≡ call (plain (views page line marker.now)) self.now.file (book_of self.now) }
    {
        let BookRef { text, lines, pages } = self.shared();
        views::line_view(self.file, self.end, page, line, text, lines, pages, marker)
    }

    // The test of a view, by its number: the refusal where the line is not shown.
    #[tactic(auto, using(crate::proofs::Views::seen_done, crate::proofs::Views::seen_stopped, crate::proofs::Views::seen_refused, crate::proofs::Views::seen_refused_at))]
    fn test_view(&self, page: usize, line: usize) -> Result<(), Refusal>
        ensures { number_after (number_of result) self.now.file (book_of self.now) ≡ call (plain (view_numbers page line)) self.now.file (book_of self.now) }
    {
        let asked = views::view_number(self.file, self.end, page, line, &self.shared());
        match asked.given {
            Ok(_) | Err(Ending::Stopped(_)) => Ok(()),
            Err(Ending::Refused(refusal) | Ending::RefusedAt(_, refusal)) => Err(refusal),
        }
    }

    // The view of a line: its characters, or the marker where it has none; the refusal where it is not shown.
    pub fn view<'a>(
        &'a self,
        page: usize,
        line: usize,
        marker: &'a [u8],
    ) -> Result<&'a [u8], Refusal>
        ensures { Seen page line marker.now self.now.file (book_of self.now) result }
    {
        self.test_view(page, line)?;
        Ok(self.line_view(page, line, marker))
    }
}

impl Row {
    // No answers.
    pub fn new() -> Row
        ensures { result.count ≡ 0 }
    {
        Row {
            words: [0; ROW],
            count: 0,
        }
    }

    // The answers themselves.
    pub fn answers(&self) -> &[u32]
        ensures { result.now ≡ take self.now.count self.now.words }
    {
        &self.words[..self.count]
    }

    // Answers of eight hexadecimal digits each.
    pub fn read(words: &mut Words) -> Result<Row, BadLine>
        ensures { IfOk result (λ row. row.count ≡ length (words_of words.old.rest)) }
    {
        let count = words.count_left();
        if ROW < count {
            return Err(BadLine);
        }
        let mut row = Row {
            words: [0; ROW],
            count,
        };
        for answer in &mut row.words[..count] {
            *answer = u32::from_be_bytes(words.array()?);
        }
        Ok(row)
    }
}

impl Stage {
    ghost use Rattle.scenes.specs.Sides.{first_of, second_of, LendsFirst};

    // The stage that a script starts with: both sides alike.
    pub fn new() -> Stage
        ensures { first_of result ≡ second_of result }
    {
        let side = Side::new();
        Stage {
            one: side,
            other: side,
            swapped: false,
            row: Row::new(),
        }
    }

    // The side that lines and calls work on.
    pub fn first(&self) -> &Side
        ensures { result.now ≡ first_of self.now }
    {
        if self.swapped { &self.other } else { &self.one }
    }

    pub fn first_mut(&mut self) -> &mut Side
        ensures* writes_back { sem 𝓛 (LendsFirst self.entry result) }
        ensures value { result.now ≡ first_of self.old }
    {
        if self.swapped {
            &mut self.other
        } else {
            &mut self.one
        }
    }

    // The side that the first is compared with.
    pub fn second(&self) -> &Side
        ensures { result.now ≡ second_of self.now }
    {
        if self.swapped { &self.one } else { &self.other }
    }

    // What a call on the first side is lent.
    pub fn lent(&mut self) -> Lent<'_>
        ensures file { result.file ≡ (first_of self.old).file }
        ensures end { result.end ≡ (first_of self.old).end }
        ensures text { result.text.now ≡ take (first_of self.old).sizes.text (first_of self.old).book.text }
        ensures lines { result.lines.now ≡ take (first_of self.old).sizes.lines (first_of self.old).book.lines }
        ensures pages { result.pages.now ≡ take (first_of self.old).sizes.pages (first_of self.old).book.pages }
        ensures row { result.row.now ≡ take self.old.row.count self.old.row.words }
    {
        let Stage {
            one,
            other,
            swapped,
            row,
        } = self;
        let first = if *swapped { other } else { one };
        first.lent(row.answers())
    }

    // Exchanges the two sides: record, lent sizes, memory and logical end. The row stays.
    pub fn exchange(&mut self)
        ensures first { first_of self.new ≡ second_of self.old }
        ensures second { second_of self.new ≡ first_of self.old }
        ensures row { self.new.row ≡ self.old.row }
        ensures swapped { self.new.swapped ≡ not self.old.swapped }
    {
        self.swapped = !self.swapped;
    }
}

// ---- the lines that set it

// Bytes, and where they go.
#[derive(Clone, Copy)]
pub struct Bytes<'a> {
    pub at: usize,
    pub pairs: Pairs<'a>,
}

// The flags and the position of a record, and the choice where the line has it.
#[derive(Clone, Copy)]
pub struct Moods {
    pub opened: bool,
    pub reading: bool,
    pub writing: bool,
    pub position: Position,
    pub split: Option<bool>,
}

// A line that sets the stage. All but the last two set the first side.
#[derive(Clone, Copy)]
pub enum Setting<'a> {
    Shape(Shape),
    Lend(Sizes),
    Rights(Rights),
    Record(Moods),
    End(Position),
    Fill(u8),
    Text(Bytes<'a>),
    Lines(Bytes<'a>),
    Pages(Bytes<'a>),
    Row(Row),
    Swap,
}

// Page, line and character.
pub fn read_position(words: &mut Words) -> Result<Position, BadLine>
    ensures page { IfOk result (λ at. at.page ≤ MOST) }
    ensures line { IfOk result (λ at. at.line ≤ MOST) }
    ensures character { IfOk result (λ at. at.character ≤ MOST) }
{
    Ok(Position {
        page: words.number(MOST)?,
        line: words.number(MOST)?,
        character: words.number(MOST)?,
    })
}

// Pages, lines of a page, characters of a line.
fn read_shape(words: &mut Words) -> Result<Shape, BadLine> {
    Ok(Shape {
        pages: words.number(MOST)?,
        lines: words.number(MOST)?,
        characters: words.number(MOST)?,
    })
}

// How often a byte stands in a word.
pub fn occurrences(word: &[u8], byte: u8) -> usize
    ensures { result ≡ count_by (λ x. x == byte) word.now }
{
    word.iter().filter(|x| **x == byte).count()
}

// Whether a right is given: its letter stands at most once.
fn read_right(word: &[u8], letter: u8) -> Result<bool, BadLine> {
    match occurrences(word, letter) {
        0 => Ok(false),
        1 => Ok(true),
        _ => Err(BadLine),
    }
}

// The record's rights: their letters, or "-".
fn read_rights(word: &[u8]) -> Result<Rights, BadLine> {
    let letters = !word.is_empty() && word.iter().all(|b| b"gpsrc".contains(b));
    if !letters && !matches!(word, b"-") {
        return Err(BadLine);
    }
    Ok(Rights {
        get: read_right(word, b'g')?,
        put: read_right(word, b'p')?,
        set: read_right(word, b's')?,
        reset: read_right(word, b'r')?,
        compress: read_right(word, b'c')?,
    })
}

impl Moods {
    // Opened, the two moods, the position, and the choice where a word is left for it.
    fn read(words: &mut Words) -> Result<Moods, BadLine> {
        Ok(Moods {
            opened: words.flag()?,
            reading: words.flag()?,
            writing: words.flag()?,
            position: read_position(words)?,
            split: if words.count_left() == 0 {
                None
            } else {
                Some(words.flag()?)
            },
        })
    }
}

impl<'a> Bytes<'a> {
    // An index, and bytes in hexadecimal.
    fn read(words: &mut Words<'a>) -> Result<Bytes<'a>, BadLine> {
        Ok(Bytes {
            at: words.number(MOST)?,
            pairs: words.pairs()?,
        })
    }

    // Stores the bytes, where they fit.
    fn store(self, room: &mut [u8]) -> Result<(), BadLine>
        ensures { OnErr result (room.new ≡ room.old) }
    {
        if room.len() < self.at || room.len() - self.at < self.pairs.len() {
            return Err(BadLine);
        }
        self.pairs.store(&mut room[self.at..]);
        Ok(())
    }
}

impl<'a> Setting<'a> {
    // The setting that a name and the words after it tell; none for another name.
    pub fn read(name: &str, words: &mut Words<'a>) -> Result<Option<Setting<'a>>, BadLine> {
        let setting = match name {
            "shape" => Setting::Shape(read_shape(words)?),
            "lend" => Setting::Lend(Sizes {
                text: words.number(TEXT)?,
                lines: words.number(LINES)?,
                pages: words.number(PAGES)?,
            }),
            "rights" => Setting::Rights(read_rights(words.word()?)?),
            "record" => Setting::Record(Moods::read(words)?),
            "end" => Setting::End(read_position(words)?),
            "fill" => Setting::Fill(u8::from_be_bytes(words.array()?)),
            "text" => Setting::Text(Bytes::read(words)?),
            "lines" => Setting::Lines(Bytes::read(words)?),
            "pages" => Setting::Pages(Bytes::read(words)?),
            "row" => Setting::Row(Row::read(words)?),
            "swap" => Setting::Swap,
            _ => return Ok(None),
        };
        Ok(Some(setting))
    }
}

impl Stage {
    // Sets the stage. Bytes that do not fit make a line bad, which does nothing.
    pub fn set(&mut self, setting: Setting) -> Result<(), BadLine>
        ensures { OnErr result (self.new ≡ self.old) }
    {
        let side = self.first_mut();
        match setting {
            Setting::Shape(shape) => side.file.shape = shape,
            Setting::Lend(sizes) => side.sizes = sizes,
            Setting::Rights(rights) => side.file.rights = rights,
            Setting::Record(moods) => side.take(moods),
            Setting::End(end) => side.end = end,
            Setting::Fill(byte) => side.book.text.fill(byte),
            Setting::Text(bytes) => bytes.store(&mut side.book.text)?,
            Setting::Lines(bytes) => bytes.store(&mut side.book.lines)?,
            Setting::Pages(bytes) => bytes.store(&mut side.book.pages)?,
            Setting::Row(row) => self.row = row,
            Setting::Swap => self.exchange(),
        }
        Ok(())
    }
}

impl Side {
    // Takes flags and a position, and the choice where it is told.
    fn take(&mut self, moods: Moods) {
        self.file.opened = moods.opened;
        self.file.reading = moods.reading;
        self.file.writing = moods.writing;
        self.file.position = moods.position;
        self.file.split = moods.split.unwrap_or(self.file.split);
    }
}
