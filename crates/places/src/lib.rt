// Positions and lengths: order, bounds, and where a line or a character stands among what is lent.
#![tactic(auto)]

ghost use Rattle.std.specs.Prelude.{◌≡◌, false, ◌≤◌, ◌<◌, ◌^◌, get_or};
ghost use Rattle.rules.specs.Book.{place, before, lengths, state, page_length, line_index, line_length, character_index, in_bounds};
ghost use Rattle.rules.specs.Step.{file_ended, page_ended, line_ended, on_end_line};
ghost use Rattle.places.specs.Small.{Small};
ghost use Rattle.places.specs.Good.{page_good, line_good};
ghost use Rattle.places.specs.Lent.{state_over, Shares};

use rules::{Position, Run, Shape};

// A book as it is lent to be read: its characters, the lengths of its lines and the lengths of its pages. Its logical end goes with the
// record.
#[derive(Clone, Copy)]
pub struct BookRef<'a> {
    pub text: &'a [u8],
    pub lines: &'a [u8],
    pub pages: &'a [u8],
}

// A book as it is lent to be changed.
#[derive(Drop)]
pub struct BookMut<'a> {
    pub text: &'a mut [u8],
    pub lines: &'a mut [u8],
    pub pages: &'a mut [u8],
}

// Whether x stands before y.
#[tactic(auto, unfolding(rules::specs::Book::before))]
pub fn is_before(x: Position, y: Position) -> bool
    ensures { result ≡ before x y }
{
    x < y
}

// Good file's test.
#[tactic(auto, unfolding(rules::specs::Step::file_ended))]
pub fn file_ended(run: Run, reading: bool) -> bool
    ensures { result ≡ file_ended reading run }
{
    if reading {
        !is_before(run.file.position, run.end)
    } else {
        run.file.shape.pages < run.file.position.page
    }
}

// The length of a page, 0 where it is not there.
#[tactic(auto, unfolding(rules::specs::Book::page_length))]
pub fn page_length(pages: &[u8], page: usize) -> usize
    ensures { (result ≡ page_length pages.now page) × (result ≤ 255) }
{
    usize::from(pages.get(page.saturating_sub(1)).copied().unwrap_or(0))
}

// Whether the position is on the logical end's line.
pub fn on_end_line(run: Run) -> bool
    ensures { result ≡ on_end_line run }
{
    run.file.position.page == run.end.page && run.file.position.line == run.end.line
}

// Where the length of a line stands.
#[tactic(auto, unfolding(rules::specs::Book::line_index))]
pub fn line_index(shape: Shape, page: usize, line: usize) -> usize
    requires { Small shape page line }
    ensures { (result ≡ line_index shape page line) × (result < 2 ^ 16) }
{
    (page - 1) * shape.lines + (line - 1)
}

// Where a character stands in the text.
#[tactic(auto, unfolding(rules::specs::Book::character_index))]
pub fn character_index(shape: Shape, page: usize, line: usize, character: usize) -> usize
    requires small { Small shape page line }
    requires le_character { (1 ≤ character) × (character ≤ 256) }
    ensures { (result ≡ character_index shape (place page line character)) × (result < 2 ^ 25) }
{
    line_index(shape, page, line) * shape.characters + (character - 1)
}

// The length of a line, 0 where it is not there.
#[tactic(auto, unfolding(rules::specs::Book::line_length))]
pub fn line_length(shape: Shape, lines: &[u8], pages: &[u8], page: usize, line: usize) -> usize
    requires { Small shape page line }
    ensures { (result ≡ line_length shape (lengths lines.now pages.now) page line) × (result ≤ 255) }
{
    if page_length(pages, page) < line {
        return 0;
    }
    let index = line_index(shape, page, line);
    usize::from(lines.get(index).copied().unwrap_or(0))
}

impl BookRef<'_> {
    // The length of a line, 0 where it is not there.
    pub fn line_length(&self, shape: Shape, page: usize, line: usize) -> usize
        requires { Small shape page line }
        ensures { (result ≡ line_length shape (lengths self.now.lines.now self.now.pages.now) page line) × (result ≤ 255) }
    {
        line_length(shape, self.lines, self.pages, page, line)
    }

    // Whether a place is in bounds.
    #[tactic(auto, unfolding(rules::specs::Book::in_bounds, rules::specs::Book::within))]
    pub fn in_bounds(&self, shape: Shape, to: Position) -> bool
        requires { (shape.pages ≤ 255) × (shape.lines ≤ 255) × (shape.characters ≤ 255) }
        ensures { result ≡ in_bounds shape (lengths self.now.lines.now self.now.pages.now) to }
    {
        (1..=shape.pages + 1).contains(&to.page)
            && (1..=page_length(self.pages, to.page) + 1).contains(&to.line)
            && (1..=self.line_length(shape, to.page, to.line) + 1).contains(&to.character)
    }

    // Good page's test. The number of a line that is there is a byte's.
    pub fn page_ended(&self, run: Run) -> bool
        ensures { (result ≡ page_ended run self.now.pages.now) × (result ≡ false → run.file.position.line ≤ 255) }
    {
        page_length(self.pages, run.file.position.page) < run.file.position.line
    }

    // Good line's test.
    pub fn line_ended(&self, run: Run) -> bool
        requires { Small run.file.shape run.file.position.page run.file.position.line }
        ensures { result ≡ line_ended (state run self.now.lines.now self.now.pages.now) }
    {
        let position = run.file.position;
        self.line_length(run.file.shape, position.page, position.line) < position.character
    }

    // Whether the position is in a good page: neither test is met.
    pub fn page_good(&self, run: Run, reading: bool) -> bool
        ensures { result ≡ page_good reading run self.now.pages.now }
    {
        !file_ended(run, reading) && !self.page_ended(run)
    }

    // Whether the position is in a good line: none of the three tests is met. A page that ended has no such line, so the line's test is
    // the page's too.
    pub fn line_good(&self, run: Run, reading: bool) -> bool
        requires small { Small run.file.shape run.file.position.page run.file.position.line }
        requires le_character { 1 ≤ run.file.position.character }
        ensures { result ≡ line_good reading (state run self.now.lines.now self.now.pages.now) }
    {
        !file_ended(run, reading) && !self.line_ended(run)
    }

    // The character at the position, 0 where it is not there.
    pub fn character_here(&self, run: Run) -> u8
        requires small { Small run.file.shape run.file.position.page run.file.position.line }
        requires le_character { (1 ≤ run.file.position.character) × (run.file.position.character ≤ 256) }
        ensures { result ≡ get_or self.now.text.now (character_index run.file.shape run.file.position) 0 }
    {
        let shape = run.file.shape;
        let i = character_index(
            shape,
            run.file.position.page,
            run.file.position.line,
            run.file.position.character,
        );
        self.text.get(i).copied().unwrap_or(0)
    }
}

impl BookMut<'_> {
    // The same book, to be read.
    pub fn shared(&self) -> BookRef<'_>
        ensures { Shares self.now result }
    {
        BookRef {
            text: self.text,
            lines: self.lines,
            pages: self.pages,
        }
    }

    // The length of a page, 0 where it is not there.
    pub fn page_length(&self, page: usize) -> usize
        ensures { (result ≡ page_length self.now.pages.now page) × (result ≤ 255) }
    {
        page_length(self.pages, page)
    }

    // The length of a line, 0 where it is not there.
    pub fn line_length(&self, shape: Shape, page: usize, line: usize) -> usize
        requires { Small shape page line }
        ensures { (result ≡ line_length shape (lengths self.now.lines.now self.now.pages.now) page line) × (result ≤ 255) }
    {
        self.shared().line_length(shape, page, line)
    }

    // Whether a place is in bounds.
    pub fn in_bounds(&self, shape: Shape, to: Position) -> bool
        requires { (shape.pages ≤ 255) × (shape.lines ≤ 255) × (shape.characters ≤ 255) }
        ensures { result ≡ in_bounds shape (lengths self.now.lines.now self.now.pages.now) to }
    {
        self.shared().in_bounds(shape, to)
    }

    // Good page's test. The number of a line that is there is a byte's.
    pub fn page_ended(&self, run: Run) -> bool
        ensures { (result ≡ page_ended run self.now.pages.now) × (result ≡ false → run.file.position.line ≤ 255) }
    {
        self.shared().page_ended(run)
    }

    // Good line's test.
    pub fn line_ended(&self, run: Run) -> bool
        requires { Small run.file.shape run.file.position.page run.file.position.line }
        ensures { result ≡ line_ended (state_over run self.now) }
    {
        self.shared().line_ended(run)
    }

    // Whether the position is in a good page.
    pub fn page_good(&self, run: Run, reading: bool) -> bool
        ensures { result ≡ page_good reading run self.now.pages.now }
    {
        self.shared().page_good(run, reading)
    }

    // Whether the position is in a good line.
    pub fn line_good(&self, run: Run, reading: bool) -> bool
        requires small { Small run.file.shape run.file.position.page run.file.position.line }
        requires le_character { 1 ≤ run.file.position.character }
        ensures { result ≡ line_good reading (state_over run self.now) }
    {
        self.shared().line_good(run, reading)
    }

    // The character at the position, 0 where it is not there.
    pub fn character_here(&self, run: Run) -> u8
        requires small { Small run.file.shape run.file.position.page run.file.position.line }
        requires le_character { (1 ≤ run.file.position.character) × (run.file.position.character ≤ 256) }
        ensures { result ≡ get_or self.now.text.now (character_index run.file.shape run.file.position) 0 }
    {
        self.shared().character_here(run)
    }
}
