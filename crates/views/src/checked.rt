// What is read together when a line is looked up.
ghost use Rattle.std.specs.Prelude.{◌≡◌, true, length};
ghost use Rattle.rules.specs.Book.{state, all_fits};

use crate::{Span, is_shown, shown_length};
use places::BookRef;
use rules::{Refusal, Run};

// A book that passed the tests before work, and keeps what they found as a fact of its type.
#[derive(Clone, Copy)]
pub struct CheckedBook<'a> {
    pub run: Run,
    pub book: BookRef<'a>,
    pub ghost fits: { all_fits (length book.text.now) (state run book.lines.now book.pages.now) ≡ true },
}

impl<'a> CheckedBook<'a> {
    ghost use Rattle.views.specs.Checked.{Checks, state_of};
    ghost use Rattle.views.specs.Spans.{line_or_none};

    // The book, or the first test before work that it fails: 1, then 3. It is part of each caller, so that no record is copied.
    #[inline(always)]
    pub fn check(run: Run, book: BookRef<'a>) -> Result<CheckedBook<'a>, Refusal>
        ensures { Checks run book.entry.text.now book.entry.lines.now book.entry.pages.now result }
    {
        entry::test_book(run, &book)?;
        Ok(CheckedBook { run, book })
    }

    // Where a line's shown characters lie in the text, if it is shown. It is part of each caller too.
    #[inline(always)]
    #[tactic(auto, using(crate::proofs::Shown::shown_in_checked))]
    pub fn line_span(&self, page: usize, line: usize) -> Option<Span>
        ensures { result ≡ line_or_none page line (state_of self.now) }
    {
        if !is_shown(self.run, page, line, &self.book) {
            return None;
        }
        Some(Span {
            from: places::character_index(self.run.file.shape, page, line, 1),
            count: shown_length(self.run, page, line, &self.book),
        })
    }
}
