//! The columns of prefixes.
ghost use Rattle.std.specs.Prelude.{◌≡◌, IfOk};
ghost use Rattle.render_sizes.specs.Extents.{PrefixColumns};

use std::alloc::AllocError;

/// How many columns stand before the lines of a value. Each error is allocation failure alone.
pub trait Prefixes {
    ghost columns: { Self → PrefixColumns };

    /// Before a heading of a level.
    fn heading(&self, level: u8) -> Result<usize, AllocError>
        ensures { IfOk result (λ n. n ≡ (columns self.now).heading level) };

    /// Before a quotation.
    fn quote(&self) -> Result<usize, AllocError>
        ensures { IfOk result (λ n. n ≡ (columns self.now).quote) };

    /// Before an item of a list with marks.
    fn bullet(&self) -> Result<usize, AllocError>
        ensures { IfOk result (λ n. n ≡ (columns self.now).bullet) };

    /// Before each item of a list with numbers, by the first number and how many items there are.
    fn numbers(&self, first: i64, items: usize) -> Result<usize, AllocError>
        ensures { IfOk result (λ n. n ≡ (columns self.now).numbers first items) };
}
