// whole(v, w): an integer as a text, written digit by digit into a lent slice.
#![tactic(auto)]

ghost use Rattle.std.specs.Prelude.{◌≡◌, ◌+◌, ◌≤◌, ◌<◌, ◌^◌, length, nat_abs, pos, option_to_list, IfOk, IfErr};
ghost use Rattle.std.proofs.lemmas.List.Edits.{sets};
ghost use Rattle.rules.specs.Step.{refusal_number};
ghost use Rattle.rules.specs.Whole.{digits, padded, whole_text, whole};
ghost use Rattle.whole.specs.Marked.{negative, signs, marked};
ghost use Rattle.whole.specs.Refused.{Writes, Refuses};

use rules::Refusal;

// Whether an integer is below 0.
pub fn is_negative(v: i32) -> bool
    ensures { result ≡ negative v }
{
    v < 0
}

// The absolute value. -2147483648 has none that fits.
pub fn magnitude(v: i32) -> u32
    requires { nat_abs v < 2147483648 }
    ensures { result ≡ nat_abs v }
{
    v.unsigned_abs()
}

// How many digits a number has.
pub fn digit_count(n: u32) -> usize
    ensures { result ≡ length (digits n) }
{
    // The library has no From<u32> for usize.
    match n.checked_ilog10() {
        Some(power) => power as usize + 1,
        None => 1,
    }
}

// How many characters the sign takes.
pub fn sign_count(plus: bool, negative: bool) -> usize
    ensures { result ≡ length (signs plus negative) }
{
    usize::from(negative || plus)
}

// The digits of a number, in as many places.
pub fn fill_digits(places: &mut [u8], n: u32)
    requires { length places.old ≡ length (digits n) }
    ensures { places.new ≡ digits n }
{
    let mut m = n;
    // By index: over `iter_mut().rev()` no invariant can name what is written so far.
    for i in (0..places.len()).rev() {
        // Below 10: `try_from` would add an arm that no call reaches.
        places[i] = b'0' + (m % 10) as u8;
        m /= 10;
    }
}

// The sign that is shown, if one is.
pub fn shown_sign(plus: bool, negative: bool) -> Option<u8>
    ensures { option_to_list result ≡ signs plus negative }
{
    if negative {
        Some(b'-')
    } else if plus {
        Some(b'+')
    } else {
        None
    }
}

// The sign, in one place if it is shown, and in none if not.
pub fn fill_sign(places: &mut [u8], plus: bool, negative: bool)
    requires { length places.old ≡ length (signs plus negative) }
    ensures { places.new ≡ signs plus negative }
{
    if let Some(sign) = shown_sign(plus, negative) {
        places.fill(sign);
    }
}

// The sign and the digits of a number over all of a field, with blanks on the left, or asterisks where they do not fit.
pub fn fill_padded(field: &mut [u8], plus: bool, negative: bool, n: u32)
    ensures { field.new ≡ padded (length field.old) (marked plus negative n) }
{
    let signs = sign_count(plus, negative);
    let size = signs + digit_count(n);
    if field.len() < size {
        field.fill(b'*');
        return;
    }
    let (blanks, text) = field.split_at_mut(field.len() - size);
    let (sign, digits) = text.split_at_mut(signs);
    blanks.fill(b' ');
    fill_sign(sign, plus, negative);
    fill_digits(digits, n);
}

// A text from an index on. What lies past the slice's end is left out, since no caller knows the slice's size.
fn store_text(output: &mut [u8], at: usize, text: &[u8])
    requires { at + length text.now < 2 ^ 64 }
    ensures { output.new ≡ sets output.old at text.now }
{
    for (i, byte) in text.iter().enumerate() {
        stores::store_byte(output, at + i, *byte);
    }
}

// The digits of a number, ending before an index. Gives where they start. What lies past the slice's end is left out.
pub fn put_digits(output: &mut [u8], end: usize, n: u32) -> usize
    requires { length (digits n) ≤ end }
    ensures { (result + length (digits n) ≡ end) × (output.new ≡ sets output.old result (digits n)) }
{
    let count = digit_count(n);
    let start = end - count;
    let mut text = [b'0'; 10];
    let places = &mut text[..count];
    fill_digits(places, n);
    store_text(output, start, places);
    start
}

// The sign, if one is shown, ending before an index. Gives where it starts. Past the slice's end it is left out.
pub fn put_sign(output: &mut [u8], end: usize, plus: bool, negative: bool) -> usize
    requires { length (signs plus negative) ≤ end }
    ensures { (result + length (signs plus negative) ≡ end) × (output.new ≡ sets output.old result (signs plus negative)) }
{
    match shown_sign(plus, negative) {
        Some(sign) => {
            stores::store_byte(output, end - 1, sign);
            end - 1
        }
        None => end,
    }
}

// Some width of characters from an index on: the sign and the digits with blanks on the left, or asterisks. What lies past the slice's
// end is left out.
pub fn put_padded(output: &mut [u8], at: usize, width: usize, plus: bool, negative: bool, n: u32)
    requires { at + width < 2 ^ 32 }
    ensures { output.new ≡ sets output.old at (padded width (marked plus negative n)) }
{
    // A sign and ten digits fit 11 places: left of these a wider field is blank.
    let blanks = width.saturating_sub(11);
    let mut text = [b' '; 11];
    let field = &mut text[..width - blanks];
    fill_padded(field, plus, negative, n);
    stores::blank(output, at, blanks);
    store_text(output, at + blanks, field);
}

// The text whole(v, 11) from an index on. What lies past the slice's end is left out.
pub fn put_whole(output: &mut [u8], at: usize, v: i32)
    requires { (nat_abs v < 2147483648) × (at < 2 ^ 31) }
    ensures { output.new ≡ sets output.old at (whole_text v (pos 11)) }
{
    let mut text = [b' '; 11];
    fill_padded(&mut text, true, v < 0, v.unsigned_abs());
    store_text(output, at, &text);
}

// How many characters whole(v, w) has.
pub fn width_of(v: i32, w: i32) -> usize
    requires { nat_abs w < 256 }
    ensures { (result ≡ length (whole_text v w)) × (result < 256) }
{
    if w == 0 {
        sign_count(false, v < 0) + digit_count(v.unsigned_abs())
    } else {
        // The library has no From<u32> for usize.
        w.unsigned_abs() as usize
    }
}

// What a call of whole hands back beside the lent output: its number, and how many characters it wrote.
#[repr(C)]
#[derive(Clone, Copy)]
pub struct Wrote {
    pub number: u8,
    pub count: usize,
}

// How many characters whole(v, w) writes into an output that has room for so many, or why it is refused.
pub fn width_for(v: i32, w: i32, room: usize) -> Result<usize, Refusal>
    ensures ok { IfOk result (λ width. Writes v w room width) }
    ensures err { IfErr result (λ refusal. Refuses v w room (refusal_number refusal)) }
{
    if v == i32::MIN {
        return Err(Refusal::TooLarge);
    }
    if 255 < w.unsigned_abs() {
        return Err(Refusal::OutOfRange);
    }
    let width = width_of(v, w);
    if room < width {
        return Err(Refusal::OutputTooShort);
    }
    Ok(width)
}

// whole(v, w) at the start of a lent output.
pub fn whole(v: i32, w: i32, output: &mut [u8]) -> Wrote
    ensures { record { number = result.number; count = result.count; buffer = output.new } ≡ whole v w output.old }
{
    match width_for(v, w, output.len()) {
        Ok(width) => {
            fill_padded(&mut output[..width], 0 < w, v < 0, v.unsigned_abs());
            Wrote {
                number: 0,
                count: width,
            }
        }
        Err(refusal) => Wrote {
            number: refusal.number(),
            count: 0,
        },
    }
}
