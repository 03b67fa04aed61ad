// Integers put and got: the room that one needs, its text, and its digits. Each loop goes on until its character or
// its room is found, or an event ends it: it counts nothing, so no `for`.
#![tactic(auto)]

ghost use Rattle.std.specs.Prelude.{◌≡◌, true, ◌||◌, eqb, ◌+◌, ◌≤◌, ◌<◌, ◌^◌, T, nat_abs, pos};
ghost use Rattle.std.proofs.lemmas.List.Edits.{sets};
ghost use Rattle.rules.specs.Book.{choose, next_character, character_index, moved_to, row_fits};
ghost use Rattle.rules.specs.Step.{outcome};
ghost use Rattle.rules.specs.Steps.{Action, digit, execute};
ghost use Rattle.places.specs.Lent.{state_over, outcome_over, giving_over, SameMemory};
ghost use Rattle.rules.specs.Ready.{Ready};
ghost use Rattle.rules.specs.Whole.{whole_text};
ghost use Rattle.rules.specs.Calls.{put_text, first_digit, with_sign, integer_given, sign_before, take_integer};
ghost use Rattle.laws.specs.Runs.{stored_by};
ghost use Rattle.laws.specs.Capped.{with_cap};
ghost use Rattle.laws.specs.Given.{given_out};
ghost use Rattle.places.specs.Small.{Small};
ghost use Rattle.places.specs.Good.{line_good};
ghost use Rattle.integers.specs.Values.{next_value};

use places::BookMut;
use rules::{Answer, EndedCall, Ending, Event, Given, Outcome, Refusal, Run, Taken};

// "Repeat: good line; line length below 11, refusal 10; if c + 11 (c + 12 when c is not 1) exceeds line length + 1, signal line end".
pub fn room_for_integer(run: Run, book: &mut BookMut, row: &[u32]) -> Outcome
    requires { Ready row.now (Action.room_for 11) (state_over run book.old) }
    ensures memory { SameMemory book.old book.new }
    ensures outcome { outcome_over result book.new ≡ execute row.now (Action.room_for 11) (state_over run book.old) book.old.text.now }
{
    let mut here = run;
    loop {
        let at = lines::good_line(here, false, false, book, row)?;
        let shape = at.file.shape;
        let position = at.file.position;
        let size = book.line_length(shape, position.page, position.line);
        if size < 11 {
            return Err(running::refused(at, Refusal::LineTooShort));
        }
        if position.character == 1 || position.character + 11 <= size {
            return Ok(at);
        }
        here = lines::line_end(at, false, false, book, row)?;
    }
}

// The text of an integer at a position with room for it.
pub fn put_text(run: Run, v: i32, book: &mut BookMut) -> Run
    requires small { Small run.file.shape run.file.position.page run.file.position.line }
    requires le_character { (1 ≤ run.file.position.character) × (run.file.position.character ≤ 256) }
    requires v_bound { nat_abs v < 2147483648 }
    ensures memory { SameMemory book.old book.new }
    ensures outcome { (state_over result book.new ≡ stored_by 11 (state_over run book.old)) × (book.new.text.now ≡ sets book.old.text.now (character_index run.file.shape run.file.position) (whole_text v (pos 11))) }
{
    let shape = run.file.shape;
    let at = places::character_index(
        shape,
        run.file.position.page,
        run.file.position.line,
        run.file.position.character,
    );
    whole::put_whole(book.text, at, v);
    stores::stored(run, 11, book.lines, book.pages)
}

// "Put an integer: the text is whole(value, 11). .. Then a blank when c is not 1, and the text."
pub fn put_integer(run: Run, v: i32, book: &mut BookMut, row: &[u32]) -> Outcome
    requires ready { Ready row.now (Action.room_for 11) (state_over run book.old) }
    requires v_bound { nat_abs v < 2147483648 }
    ensures memory { SameMemory book.old book.new }
    ensures outcome { outcome_over result book.new ≡ put_text row.now (whole_text v (pos 11)) (state_over run book.old) book.old.text.now }
{
    let at = room_for_integer(run, book, row)?;
    if at.file.position.character == 1 {
        return Ok(put_text(at, v, book));
    }
    let blank = stores::store_character(at, book, b' ');
    Ok(put_text(blank, v, book))
}

// Whether a byte is a digit.
#[tactic(auto, unfolding(rules::specs::Steps::digit, rules::specs::Book::within))]
pub fn is_digit(b: u8) -> bool
    ensures { result ≡ digit b }
{
    b.is_ascii_digit()
}

// The position one character on.
pub fn passed(run: Run) -> Run
    requires { run.file.position.character < 256 + 1 }
    ensures { result ≡ moved_to run (next_character run.file.position) }
{
    running::moved(
        run,
        run.file.position.page,
        run.file.position.line,
        run.file.position.character + 1,
    )
}

// "good line and pass blanks". Most often the line is good at once.
pub fn pass_blanks(run: Run, book: &mut BookMut, row: &[u32]) -> Outcome
    requires { Ready row.now Action.pass_blanks (state_over run book.old) }
    ensures memory { SameMemory book.old book.new }
    ensures outcome { outcome_over result book.new ≡ execute row.now Action.pass_blanks (state_over run book.old) book.old.text.now }
{
    let mut here = run;
    loop {
        if book.line_good(here, true) {
            if book.character_here(here) != b' ' {
                return Ok(here);
            }
            here = passed(here);
        } else {
            let at = lines::reach_line(here, true, false, book, row)?;
            if book.character_here(at) != b' ' {
                return Ok(at);
            }
            here = passed(at);
        }
    }
}

// Past a sign, where one stands at the position.
pub fn past_sign(run: Run, b: u8) -> Run
    requires { run.file.position.character < 256 + 1 }
    ensures { result ≡ choose (eqb b 43 || eqb b 45) (moved_to run (next_character run.file.position)) run }
{
    if b == b'+' || b == b'-' {
        passed(run)
    } else {
        run
    }
}

// "good line and pass blanks; an optional sign; the same for blanks": whether the sign is "-".
pub fn sign_before(run: Run, book: &mut BookMut, row: &[u32]) -> Result<Taken<bool>, EndedCall>
    requires { Ready row.now Action.pass_blanks (state_over run book.old) }
    ensures memory { SameMemory book.old book.new }
    ensures outcome { giving_over result book.new ≡ sign_before row.now (state_over run book.old) book.old.text.now }
{
    let at = pass_blanks(run, book, row)?;
    let b = book.character_here(at);
    let signed = past_sign(at, b);
    let run = pass_blanks(signed, book, row)?;
    let value = b == b'-';
    Ok(Taken { run, value })
}

// "then a digit. Anything else there is passed and signals character, suggesting "0"".
pub fn first_digit(run: Run, book: &mut BookMut, row: &[u32]) -> Result<Taken<u8>, EndedCall>
    requires ready { Ready row.now Action.pass_blanks (state_over run book.old) }
    requires line_is_good { line_good true (state_over run book.old) ≡ true }
    requires row_good { T (row_fits row.now) }
    ensures memory { SameMemory book.old book.new }
    ensures outcome { giving_over result book.new ≡ first_digit row.now (state_over run book.old) book.old.text.now }
{
    let b = book.character_here(run);
    let on = passed(run);
    if is_digit(b) {
        return Ok(Taken { run: on, value: b });
    }
    let taken = lines::character_event(on, true, b'0', book, row)?;
    if is_digit(taken.value) {
        return Ok(taken);
    }
    Err(running::refused_at(taken.run, Event::Character, Refusal::BadCharacter))
}

// The value with one digit more.
pub fn next_value(value: u64, b: u8) -> u64
    requires { (value ≤ 2147483648) × (digit b ≡ true) }
    ensures { result ≡ next_value value b }
{
    if 2147483647 < value {
        return value;
    }
    let next = value * 10 + u64::from(b - b'0');
    if next <= 2147483647 { next } else { 2147483648 }
}

// "More digits as long as they come, ended by a string's stops 2 and 3 or by a non-digit, not passed." Of a value above 2147483647 only
// that it is above.
pub fn more_digits(
    run: Run,
    first: u64,
    book: &mut BookMut,
    row: &[u32],
) -> Result<Taken<u64>, EndedCall>
    requires ready { Ready row.now (Action.more_digits first) (state_over run book.old) }
    requires first_bound { first ≤ 9 }
    ensures memory { SameMemory book.old book.new }
    ensures outcome { giving_over result book.new ≡ with_cap (execute row.now (Action.more_digits first) (state_over run book.old) book.old.text.now) }
{
    let mut here = run;
    let mut value = first;
    loop {
        let at = match lines::good_line(here, true, true, book, row) {
            Ok(at) => at,
            Err(ended) => {
                return match ended.ending {
                    Ending::Stopped(_) => Ok(Taken {
                        run: ended.run,
                        value,
                    }),
                    _ => Err(ended),
                };
            }
        };
        let b = book.character_here(at);
        if !is_digit(b) {
            return Ok(Taken { run: at, value });
        }
        value = next_value(value, b);
        here = passed(at);
    }
}

// A value with the sign that was read.
pub fn with_sign(minus: bool, value: u64) -> i32
    requires { value ≤ 2147483647 }
    ensures { result ≡ with_sign minus value }
{
    // At most 2147483647: `try_from` would add an arm that no call reaches.
    let v = value as i32;
    if minus { 0 - v } else { v }
}

// "Above 2147483647 signals value: 0 is refusal 9, else done with no value given."
pub fn integer_given(
    run: Run,
    minus: bool,
    value: u64,
    book: &mut BookMut,
    row: &[u32],
) -> Result<Taken<Given>, EndedCall>
    requires { Ready row.now Action.pass_blanks (state_over run book.old) }
    ensures memory { SameMemory book.old book.new }
    ensures outcome { given_out result book.new.text.now book.new.lines.now book.new.pages.now ≡ integer_given row.now minus value (state_over run book.old) book.old.text.now }
{
    if value <= 2147483647 {
        let v = with_sign(minus, value);
        return Ok(Taken {
            run,
            value: Given::Integer(v),
        });
    }
    let next = running::signalled(run, row);
    match running::next_answer(run, row) {
        Answer::Default => Err(running::refused_at(next, Event::Value, Refusal::TooLarge)),
        Answer::Jump => Err(running::refused_at(next, Event::Value, Refusal::ProgramJumped)),
        Answer::Mend(mending) => {
            let run = events::answered(next, mending, true, book, row)?;
            Ok(Taken {
                run,
                value: Given::Nothing,
            })
        }
    }
}

// "Get an integer".
pub fn take_integer(run: Run, book: &mut BookMut, row: &[u32]) -> Result<Taken<Given>, EndedCall>
    requires ready { Ready row.now Action.pass_blanks (state_over run book.old) }
    requires row_good { T (row_fits row.now) }
    requires events_bound { run.events ≤ 2 ^ 40 }
    ensures memory { SameMemory book.old book.new }
    ensures outcome { given_out result book.new.text.now book.new.lines.now book.new.pages.now ≡ take_integer row.now (state_over run book.old) book.old.text.now }
{
    let sign = sign_before(run, book, row)?;
    let digit = first_digit(sign.run, book, row)?;
    let first = u64::from(digit.value - b'0');
    let sum = more_digits(digit.run, first, book, row)?;
    integer_given(sum.run, sign.value, sum.value, book, row)
}
