// Strings put and got: a run of ordinary characters at once, a turn to the next line without the event cycle, any other character by itself.
// A step that is called with the running call gets a copy of its own, so that the loop's own stays in registers.
#![tactic(auto)]

ghost use Rattle.std.specs.Prelude.{◌≡◌, [], true, ◌+◌, ◌≤◌, T, length, take, drop};
ghost use Rattle.rules.specs.Book.{state, row_fits};
ghost use Rattle.rules.specs.Step.{done, ended_by, ended_with, outcome};
ghost use Rattle.rules.specs.Steps.{Action};
ghost use Rattle.places.specs.Lent.{state_over, outcome_over, giving_over, SameMemory};
ghost use Rattle.rules.specs.Ready.{Ready, Valid};
ghost use Rattle.rules.specs.Calls.{a_string, put_characters, take_character, string_character, get_characters};
ghost use Rattle.places.specs.Good.{line_good};
ghost use Rattle.std.proofs.lemmas.List.Edits.{sets};
ghost use Rattle.rules.specs.Book.{character_index, moved_to};
ghost use Rattle.laws.specs.Runs.{on_by, stored_by};
ghost use Rattle.stores.proofs.Smalls.{SmallRun};
ghost use Rattle.strings.specs.Parts.{Room, Storable, Takable};

use places::{BookMut, BookRef};
use rules::{EndedCall, Ending, Outcome, Run, Stop, Taken};

// What a string delivered: the running call after it, how it ended, and how many characters it got.
#[derive(Clone, Copy)]
pub struct Delivered {
    pub run: Run,
    pub ending: Ending,
    pub count: usize,
}

// How many characters there are from the position on, if its line is good: on the line, and, reading, before the logical end.
pub fn room_here(run: Run, reading: bool, book: &BookRef) -> usize
    requires { Valid (state run book.now.lines.now book.now.pages.now) }
    ensures { Room reading (state run book.now.lines.now book.now.pages.now) (length book.now.text.now) result }
{
    if !book.line_good(run, reading) {
        return 0;
    }
    let shape = run.file.shape;
    let page = run.file.position.page;
    let line = run.file.position.line;
    let character = run.file.position.character;
    let size = book.line_length(shape, page, line);
    let at = places::character_index(shape, page, line, character);
    let there = book.text.len().saturating_sub(at);
    let rest = (size + 1).saturating_sub(character);
    let room = rest.min(there);
    if !reading {
        return room;
    }
    if places::on_end_line(run) {
        let seen = run.end.character.saturating_sub(character);
        return room.min(seen);
    }
    room
}

// How many characters of a string can be stored at once: they are printable, and fit the line from the position on.
pub fn run_length(run: Run, rest: &[u8], book: &BookRef) -> usize
    requires { Valid (state run book.now.lines.now book.now.pages.now) }
    ensures { Storable (state run book.now.lines.now book.now.pages.now) (length book.now.text.now) rest.now result }
{
    let limit = room_here(run, false, book).min(rest.len());
    characters::leading_printable(&rest[..limit])
}

// Stores some characters at the position.
pub fn store_some(run: Run, some: &[u8], book: &mut BookMut) -> Run
    requires small_run { SmallRun run }
    requires some_bound { (run.file.position.character + length some.now ≤ 256) × (character_index run.file.shape run.file.position + length some.now ≤ length book.old.text.now) }
    ensures memory { SameMemory book.old book.new }
    ensures outcome { (state_over result book.new ≡ stored_by (length some.now) (state_over run book.old)) × (book.new.text.now ≡ sets book.old.text.now (character_index run.file.shape run.file.position) some.now) }
{
    let position = run.file.position;
    let at = places::character_index(
        run.file.shape,
        position.page,
        position.line,
        position.character,
    );
    stores::store_run(book.text, at, some);
    stores::stored(run, some.len(), book.lines, book.pages)
}

// "Put a string: its characters in turn": runs of ordinary ones at once, any other by itself. A `for` is no plainer: a step takes a whole
// run.
pub fn put_string(run: Run, bytes: &[u8], book: &mut BookMut, row: &[u32]) -> Outcome
    requires ready { Ready row.now (Action.put_character true 0) (state_over run book.old) }
    requires row_good { T (row_fits row.now) }
    ensures memory { SameMemory book.old book.new }
    ensures outcome { outcome_over result book.new ≡ put_characters row.now true bytes.now (state_over run book.old) book.old.text.now }
{
    let mut here = run;
    let mut rest = bytes;
    while let Some((first, others)) = rest.split_first() {
        let n = run_length(here, rest, &book.shared());
        if n != 0 {
            let (some, left) = rest.split_at(n);
            here = store_some(here, some, book);
            rest = left;
        } else if turns::turns(here, false, &book.shared(), row) {
            here = turns::turned_writing_in(here, book, row);
        } else {
            let from = here;
            here = lines::try_character(from, true, *first, book, row)?;
            rest = others;
        }
    }
    Ok(here)
}

// "pass it; a byte outside 32 to 126 signals character, suggesting a blank".
pub fn take_character(run: Run, book: &mut BookMut, row: &[u32]) -> Result<Taken<u8>, EndedCall>
    requires ready { Ready row.now Action.pass_blanks (state_over run book.old) }
    requires line_is_good { line_good true (state_over run book.old) ≡ true }
    requires row_good { T (row_fits row.now) }
    ensures memory { SameMemory book.old book.new }
    ensures outcome { giving_over result book.new ≡ take_character row.now (state_over run book.old) book.old.text.now }
{
    let b = book.character_here(run);
    let position = run.file.position;
    let on = running::moved(run, position.page, position.line, position.character + 1);
    if characters::is_printable(b) {
        return Ok(Taken { run: on, value: b });
    }
    lines::character_event(on, true, b' ', book, row)
}

// A character of a string: the stops 1 to 3, or as a character.
pub fn string_character(
    run: Run,
    terminators: &[u8],
    book: &mut BookMut,
    row: &[u32],
) -> Result<Taken<u8>, EndedCall>
    requires ready { Ready row.now Action.pass_blanks (state_over run book.old) }
    requires row_good { T (row_fits row.now) }
    ensures memory { SameMemory book.old book.new }
    ensures outcome { giving_over result book.new ≡ string_character row.now terminators.now (state_over run book.old) book.old.text.now }
{
    let good = lines::good_line(run, true, true, book, row)?;
    let b = book.character_here(good);
    if characters::one_of(terminators, b) {
        return Err(running::stopped(good, Stop::Terminator));
    }
    take_character(good, book, row)
}

// How many characters can be got at once, of at most a limit: ordinary ones from the position on, before the logical end.
pub fn ready_length(run: Run, terminators: &[u8], limit: usize, book: &BookRef) -> usize
    requires { Valid (state run book.now.lines.now book.now.pages.now) }
    ensures { Takable terminators.now (state run book.now.lines.now book.now.pages.now) book.now.text.now limit result }
{
    let most = room_here(run, true, book).min(limit);
    let position = run.file.position;
    let at = places::character_index(
        run.file.shape,
        position.page,
        position.line,
        position.character,
    );
    match book.text.get(at..at + most) {
        Some(part) => characters::leading_ordinary(part, terminators),
        None => 0,
    }
}

// Takes as many characters from the position on as there is room for, and passes them.
pub fn take_some(run: Run, text: &[u8], room: &mut [u8]) -> Run
    requires small_run { SmallRun run }
    requires room_bound { (run.file.position.character + length room.old ≤ 256) × (character_index run.file.shape run.file.position + length room.old ≤ length text.now) }
    ensures { (result ≡ moved_to run (on_by (length room.old) run.file.position)) × (room.new ≡ take (length room.old) (drop (character_index run.file.shape run.file.position) text.now)) }
{
    let position = run.file.position;
    let at = places::character_index(
        run.file.shape,
        position.page,
        position.line,
        position.character,
    );
    let count = room.len();
    stores::store_run(room, 0, &text[at..at + count]);
    running::moved(
        run,
        position.page,
        position.line,
        position.character + count,
    )
}

// "Get a string": its characters into the lent output, up to a stop or a refusal. The index is the count that is handed back; a `for` is no
// plainer, since a step takes a whole run.
pub fn get_string(
    run: Run,
    terminators: &[u8],
    output: &mut [u8],
    book: &mut BookMut,
    row: &[u32],
) -> Delivered
    requires ready { Ready row.now Action.pass_blanks (state_over run book.old) }
    requires row_good { T (row_fits row.now) }
    ensures memory { SameMemory book.old book.new }
    ensures outcome { (get_characters row.now terminators.now (length output.old) [] (state_over run book.old) book.old.text.now ≡ done (a_string (take result.count output.new) (ended_by (ended_with result.run result.ending))) (state result.run book.new.lines.now book.new.pages.now) book.new.text.now) × (result.count ≤ length output.old) × (drop result.count output.new ≡ drop result.count output.old) }
{
    let mut here = run;
    let mut i = 0;
    while i < output.len() {
        let n = ready_length(here, terminators, output.len() - i, &book.shared());
        if n != 0 {
            here = take_some(here, book.shared().text, &mut output[i..i + n]);
            i += n;
        } else if turns::turns(here, true, &book.shared(), row) {
            here = turns::turned_reading(here, row);
        } else {
            let from = here;
            match string_character(from, terminators, book, row) {
                Ok(taken) => {
                    output[i] = taken.value;
                    here = taken.run;
                    i += 1;
                }
                Err(ended) => {
                    return Delivered {
                        run: ended.run,
                        ending: ended.ending,
                        count: i,
                    };
                }
            }
        }
    }
    Delivered {
        run: here,
        ending: Ending::Stopped(Stop::OutputFull),
        count: i,
    }
}
