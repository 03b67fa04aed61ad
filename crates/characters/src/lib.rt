// Tests of characters, one and many: printable ones, terminators, and runs of those that signal nothing.
#![tactic(auto)]

ghost use Rattle.std.specs.Prelude.{◌≡◌, true, ◌≤◌, length, take};
ghost use Rattle.rules.specs.Steps.{printable};
ghost use Rattle.rules.specs.Calls.{one_of};
ghost use Rattle.laws.specs.Runs.{every, ordinary};
ghost use Rattle.characters.specs.Passes.{other, outside};

// Whether a byte is from 32 to 126.
#[tactic(auto, unfolding(rules::specs::Steps::printable, rules::specs::Book::within))]
pub fn is_printable(b: u8) -> bool
    ensures { result ≡ printable b }
{
    (32..=126).contains(&b)
}

// Whether a byte is in the lent terminators. Mostly they are few, and then the library's `contains` takes twice as long.
#[tactic(auto, using(crate::proofs::Runs::one_of_any, std::proofs::lemmas::Grind::common_steps))]
pub fn one_of(terminators: &[u8], b: u8) -> bool
    ensures { result ≡ one_of terminators.now b }
{
    for terminator in terminators {
        if *terminator == b {
            return true;
        }
    }
    false
}

// Whether a byte is no terminator and signals nothing.
#[tactic(auto, unfolding(laws::specs::Runs::ordinary))]
pub fn is_ordinary(b: u8, terminators: &[u8]) -> bool
    ensures { result ≡ ordinary terminators.now b }
{
    is_printable(b) && !one_of(terminators, b)
}

// Whether all of some bytes are printable: one pass without a branch for a byte.
#[tactic(auto, using(crate::proofs::Runs::every_fold, std::proofs::lemmas::Grind::common_steps))]
pub fn all_printable(bytes: &[u8]) -> bool
    ensures { result ≡ every printable bytes.now }
{
    bytes.iter().fold(true, |all, b| all & is_printable(*b))
}

// Whether none of some bytes is a certain one: one pass without a branch for a byte.
#[tactic(auto, using(crate::proofs::Runs::every_fold, std::proofs::lemmas::Grind::common_steps))]
pub fn is_absent(b: u8, bytes: &[u8]) -> bool
    ensures { result ≡ every (other b) bytes.now }
{
    bytes.iter().fold(true, |absent, x| absent & (*x != b))
}

// Whether none of some bytes is a terminator: a pass for each terminator.
pub fn none_ends(terminators: &[u8], bytes: &[u8]) -> bool
    ensures { result ≡ every (outside terminators.now) bytes.now }
{
    terminators
        .iter()
        .all(|terminator| is_absent(*terminator, bytes))
}

// How many bytes at the start are printable: most often all of them.
pub fn leading_printable(bytes: &[u8]) -> usize
    ensures within { result ≤ length bytes.now }
    ensures printable { every printable (take result bytes.now) ≡ true }
{
    if all_printable(bytes) {
        return bytes.len();
    }
    bytes
        .iter()
        .position(|b| !is_printable(*b))
        .unwrap_or(bytes.len())
}

// Whether all of some bytes are ordinary.
#[tactic(auto, using(crate::proofs::Runs::ordinary_both, std::proofs::lemmas::Grind::common_steps))]
pub fn all_ordinary(bytes: &[u8], terminators: &[u8]) -> bool
    ensures { result ≡ every (ordinary terminators.now) bytes.now }
{
    all_printable(bytes) && none_ends(terminators, bytes)
}

// How many bytes at the start are ordinary: most often all of them.
pub fn leading_ordinary(bytes: &[u8], terminators: &[u8]) -> usize
    ensures within { result ≤ length bytes.now }
    ensures ordinary { every (ordinary terminators.now) (take result bytes.now) ≡ true }
{
    if all_ordinary(bytes, terminators) {
        return bytes.len();
    }
    bytes
        .iter()
        .position(|b| !is_ordinary(*b, terminators))
        .unwrap_or(bytes.len())
}
