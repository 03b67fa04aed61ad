// What every call begins and ends with: the tests before work, the turn of the moods, and the reply.
#![tactic(auto)]

ghost use Rattle.std.specs.Prelude.{◌≡◌, true, not, ◌&&◌, ◌≤◌, T, length, Err};
ghost use Rattle.rules.specs.Book.{state, lengths, run_with, before, legal, all_up_to, lengths_fit, some_right, in_bounds, shape_fits, book_fits, all_fits, moods_fit, word_fits, row_fits};
ghost use Rattle.entry.specs.Sound.{flags_fit, sound, Lent, places_on, memory_tested, places_tested};
ghost use Rattle.entry.specs.Before.{sizes_are, before_work, before_asking, may_do, turnable_by, turned_by, reply_of, given_reply, ended_reply_by};

use places::BookRef;
use rules::{EndedCall, File, Given, Outcome, Position, Refusal, Reply, Rights, Run, Shape, Taken};
use running::{Ends, TellsRefusal};

// The running call that a call begins with.
pub fn start(file: File, end: Position) -> Run
    ensures { result ≡ run_with file end 0 0 }
{
    Run {
        file: file,
        end: end,
        events: 0,
        taken: 0,
    }
}

// "P pages, L lines, C characters, each 1 to 255, with P·L at most 1,024 and P·L·C at most 65,536". All three are at most 255 where
// their bits together are, and at least 1 where their product is.
pub fn is_legal(shape: Shape) -> bool
    ensures { result ≡ legal shape }
{
    if 255 < (shape.pages | shape.lines | shape.characters) {
        return false;
    }
    let lines = shape.pages * shape.lines;
    if 1024 < lines {
        return false;
    }
    let all = lines * shape.characters;
    if all == 0 {
        return false;
    }
    all <= 65536
}

// "lent sizes (exactly P·L·C, P·L and P)".
pub fn sizes_fit(shape: Shape, text: usize, lines: usize, pages: usize) -> bool
    requires { T (legal shape) }
    ensures { result ≡ sizes_are shape text lines pages }
{
    let count = shape.pages * shape.lines;
    if text != count * shape.characters {
        return false;
    }
    if lines != count {
        return false;
    }
    pages == shape.pages
}

// Whether every lent length is at most a limit: one pass for the greatest, without a branch for an element.
#[tactic(auto, using(crate::proofs::Lists::all_by_greatest, std::proofs::lemmas::Grind::common_steps))]
pub fn all_up_to(most: usize, lengths: &[u8]) -> bool
    ensures { result ≡ all_up_to most lengths.now }
{
    let top = lengths.iter().fold(0, |top, length| top.max(*length));
    usize::from(top) <= most
}

// "At least one of get and put is needed."
#[tactic(auto, unfolding(rules::specs::Book::some_right))]
pub fn has_right(rights: Rights) -> bool
    ensures { result ≡ some_right rights }
{
    rights.get || rights.put
}

// "both moods on, a mood without its right, or no right to get or put".
pub fn flags_fit(file: File) -> bool
    ensures { result ≡ flags_fit file }
{
    has_right(file.rights) && moods_fit(file)
}

// "both moods on, a mood without its right".
#[tactic(auto, unfolding(rules::specs::Book::moods_fit))]
pub fn moods_fit(file: File) -> bool
    ensures { result ≡ moods_fit file }
{
    !(file.reading && file.writing)
        && (!file.reading || file.rights.get)
        && (!file.writing || file.rights.put)
}

// What establish looks at.
pub fn shape_fits(run: Run, book: &BookRef) -> bool
    ensures { result ≡ shape_fits (length book.now.text.now) (state run book.now.lines.now book.now.pages.now) }
{
    let shape = run.file.shape;
    let rights = run.file.rights;
    if !is_legal(shape) {
        return false;
    }
    if !sizes_fit(shape, book.text.len(), book.lines.len(), book.pages.len()) {
        return false;
    }
    has_right(rights)
}

// Whether every lent length is at most what the shape allows.
#[tactic(auto, unfolding(rules::specs::Book::lengths_fit))]
pub fn lengths_fit(shape: Shape, book: &BookRef) -> bool
    ensures { result ≡ lengths_fit shape (lengths book.now.lines.now book.now.pages.now) }
{
    all_up_to(shape.characters, book.lines) && all_up_to(shape.lines, book.pages)
}

// What open looks at.
pub fn book_fits(run: Run, book: &BookRef) -> bool
    ensures { result ≡ book_fits (length book.now.text.now) (state run book.now.lines.now book.now.pages.now) }
{
    let shape = run.file.shape;
    let end = run.end;
    if !shape_fits(run, book) {
        return false;
    }
    if !lengths_fit(shape, book) {
        return false;
    }
    book.in_bounds(shape, end)
}

// What every other call looks at: what open does, and the record. A call itself is tested by `test_book`, in two halves.
pub fn all_fits(run: Run, book: &BookRef) -> bool
    ensures { result ≡ all_fits (length book.now.text.now) (state run book.now.lines.now book.now.pages.now) }
{
    let file = run.file;
    let shape = file.shape;
    let position = file.position;
    let end = run.end;
    if !shape_fits(run, book) {
        return false;
    }
    if !lengths_fit(shape, book) {
        return false;
    }
    if !book.in_bounds(shape, end) {
        return false;
    }
    if !book.in_bounds(shape, position) {
        return false;
    }
    if places::is_before(end, position) {
        return false;
    }
    moods_fit(file)
}

// Whether shape, lent sizes and lengths fit.
pub fn is_sound(shape: Shape, text: usize, lines: &[u8], pages: &[u8]) -> bool
    ensures { result ≡ sound shape text lines.now pages.now }
{
    // The lengths are looked at without the text.
    let lengths = BookRef {
        text: &[],
        lines: lines,
        pages: pages,
    };
    is_legal(shape)
        && sizes_fit(shape, text, lines.len(), pages.len())
        && lengths_fit(shape, &lengths)
}

// How many places a line has for a position, 0 where there is no such line: in sound memory no index has to be looked at.
pub fn places_on(
    shape: Shape,
    text: usize,
    lines: &[u8],
    pages: &[u8],
    page: usize,
    line: usize,
) -> usize
    requires { Lent shape text lines.now pages.now }
    ensures { (result ≡ places_on shape (lengths lines.now pages.now) page line) × (result ≤ 256) }
{
    if page == 0 {
        return 0;
    }
    if line == 0 {
        return 0;
    }
    let mut size = 0;
    if page <= pages.len() {
        size = usize::from(pages[page - 1]);
        if line <= size {
            let i = (page - 1) * shape.lines + (line - 1);
            return usize::from(lines[i]) + 1;
        }
    } else if page != pages.len() + 1 {
        return 0;
    }
    if line == size + 1 { 1 } else { 0 }
}

// Whether a place is in bounds.
pub fn is_within(shape: Shape, text: usize, lines: &[u8], pages: &[u8], to: Position) -> bool
    requires { Lent shape text lines.now pages.now }
    ensures { result ≡ in_bounds shape (lengths lines.now pages.now) to }
{
    if to.character < 1 {
        return false;
    }
    to.character <= places_on(shape, text, lines, pages, to.page, to.line)
}

// Whether a position is in bounds and not beyond the logical end, which is in bounds: on its line nothing has to be looked up.
pub fn is_reached(
    shape: Shape,
    text: usize,
    lines: &[u8],
    pages: &[u8],
    position: Position,
    end: Position,
) -> bool
    requires lent { Lent shape text lines.now pages.now }
    requires end_in_bounds { in_bounds shape (lengths lines.now pages.now) end ≡ true }
    ensures { result ≡ (not (before end position) && in_bounds shape (lengths lines.now pages.now) position) }
{
    if position.character < 1 {
        return false;
    }
    if position.page == end.page {
        if position.line == end.line {
            return position.character <= end.character;
        }
        if end.line < position.line {
            return false;
        }
    } else if end.page < position.page {
        return false;
    }
    position.character <= places_on(shape, text, lines, pages, position.page, position.line)
}

// The first half of the tests before work: 1 where the record is not open; 3 where its flags, its shape, the lent sizes or the lengths do
// not fit. The tests stand in two halves, so that each is short enough to become part of its caller.
pub fn test_memory(file: File, book: &BookRef) -> Result<(), Refusal>
    ensures { result ≡ memory_tested (length book.now.text.now) file book.now.lines.now book.now.pages.now }
{
    let shape = file.shape;
    if !file.opened {
        return Err(Refusal::NotOpen);
    }
    if !flags_fit(file) {
        return Err(Refusal::BadBook);
    }
    if is_sound(shape, book.text.len(), book.lines, book.pages) {
        Ok(())
    } else {
        Err(Refusal::BadBook)
    }
}

// The second half: 3 where logical end or position do not fit.
pub fn test_places(file: File, end: Position, book: &BookRef) -> Result<(), Refusal>
    requires { Lent file.shape (length book.now.text.now) book.now.lines.now book.now.pages.now }
    ensures { result ≡ places_tested file end (lengths book.now.lines.now book.now.pages.now) }
{
    let shape = file.shape;
    let position = file.position;
    if !is_within(shape, book.text.len(), book.lines, book.pages, end) {
        return Err(Refusal::BadBook);
    }
    if is_reached(
        shape,
        book.text.len(),
        book.lines,
        book.pages,
        position,
        end,
    ) {
        Ok(())
    } else {
        Err(Refusal::BadBook)
    }
}

// "unknown kind, non-zero unused field, kind 7 above 255".
pub fn word_fits(word: u32) -> bool
    ensures { result ≡ word_fits word }
{
    let kind = running::kind_of(word);
    let fields = running::place_of(word);
    if 8 < kind {
        return false;
    }
    if kind == 4 {
        return true;
    }
    if fields.page != 0 {
        return false;
    }
    if fields.line != 0 {
        return false;
    }
    if fields.character == 0 {
        return true;
    }
    if kind != 7 {
        return false;
    }
    fields.character <= 255
}

// Refusal 2's test of a row.
pub fn row_fits(row: &[u32]) -> bool
    ensures { result ≡ row_fits row.now }
{
    row.len() <= 64 && row.iter().all(|word| word_fits(*word))
}

// Both halves: 1, then 3.
pub fn test_book(run: Run, book: &BookRef) -> Result<(), Refusal>
    ensures { result ≡ before_work (length book.now.text.now) (state run book.now.lines.now book.now.pages.now) }
{
    let file = run.file;
    let end = run.end;
    test_memory(file, book)?;
    test_places(file, end, book)
}

// The tests of a call that lends answers: 1, then 3, then 2.
pub fn test_call(run: Run, book: &BookRef, row: &[u32]) -> Result<(), Refusal>
    ensures { result ≡ before_asking row.now (length book.now.text.now) (state run book.now.lines.now book.now.pages.now) }
{
    test_book(run, book)?;
    if row_fits(row) {
        Ok(())
    } else {
        Err(Refusal::BadAnswers)
    }
}

// The right of a call that gets, or of one that puts.
pub fn may_do(rights: Rights, reading: bool) -> bool
    ensures { result ≡ may_do reading rights }
{
    if reading { rights.get } else { rights.put }
}

// "On a book without set, turning against a mood that is on is refusal 5."
pub fn is_turnable(run: Run, reading: bool) -> bool
    ensures { result ≡ turnable_by reading run }
{
    if run.file.rights.set {
        return true;
    }
    if reading {
        let writing = run.file.writing;
        return !writing;
    }
    let against = run.file.reading;
    !against
}

// "Get calls turn read mood on and write mood off; put calls the reverse."
pub fn turned(run: Run, reading: bool) -> Outcome
    ensures { result ≡ turned_by reading run }
{
    let rights = run.file.rights;
    if !may_do(rights, reading) {
        return Err(running::refused(run, Refusal::RightMissing));
    }
    if !is_turnable(run, reading) {
        return Err(running::refused(run, Refusal::MoodMissing));
    }
    Ok(running::in_mood(run, reading))
}

// All that a call hands back by value.
pub fn reply<H>(run: Run, count: usize, given: Result<Given, H>) -> Reply<H>
    ensures { result ≡ reply_of run count given }
{
    let file = run.file;
    let end = run.end;
    Reply {
        file: file,
        end: end,
        events: run.events,
        taken: run.taken,
        count: count,
        given: given,
    }
}

// A refusal, told by its case or by any number.
pub fn refuse<R: TellsRefusal>(run: Run, refusal: R) -> Reply<R::Ending>
    ensures { result ≡ reply_of run 0 (Err (R.refused refusal)) }
{
    reply(run, 0, Err(refusal.refused()))
}

// A call that may give a character or an integer.
pub fn given(found: Result<Taken<Given>, EndedCall>) -> Reply
    ensures { result ≡ given_reply found }
{
    match found {
        Ok(taken) => reply(taken.run, 0, Ok(taken.value)),
        Err(ended) => reply(ended.run, 0, Err(ended.ending)),
    }
}

// A call that gives nothing but how it ended. Where a status says that it is done after all, nothing more is told.
pub fn ended<H: Ends>(outcome: Result<Run, EndedCall<H>>) -> Reply<H>
    ensures { result ≡ ended_reply_by H.is_done outcome }
{
    match outcome {
        Ok(run) => reply(run, 0, Ok(Given::Nothing)),
        Err(ended) if ended.ending.is_done() => reply(ended.run, 0, Ok(Given::Nothing)),
        Err(ended) => reply(ended.run, 0, Err(ended.ending)),
    }
}
