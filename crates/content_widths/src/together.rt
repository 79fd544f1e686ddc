//! The columns of what stands together, with no break point in it.
ghost use Rattle.std.specs.Prelude.{ℕ, ◌≡◌, [], ◌∷◌, ◌++◌, List, max};
ghost use Rattle.content_widths.specs.Flows.{capped};
ghost use Rattle.content_widths.specs.Reading.{IsTogether};

use text_pieces::{is_break_point, width_of};

/// The greatest columns of characters that stand together, as far as a text was read.
#[derive(Clone, Copy)]
pub(crate) struct Together {
    // before the last break point
    greatest: usize,
    // since then
    run: usize,
}

impl Together {
    pub(crate) fn new() -> Together
        ensures { IsTogether result [] }
    {
        Together {
            greatest: 0,
            run: 0,
        }
    }

    pub(crate) fn after(self, c: char) -> Together
        ensures { (cs : List ℕ) → IsTogether self cs → IsTogether result (cs ++ c ∷ []) }
    {
        if is_break_point(c) {
            return Together {
                greatest: self.columns(),
                run: 0,
            };
        }
        Together {
            run: self.run.saturating_add(width_of(c)),
            ..self
        }
    }

    pub(crate) fn columns(self) -> usize
        ensures { result ≡ capped (max self.greatest self.run) }
    {
        self.greatest.max(self.run)
    }
}
