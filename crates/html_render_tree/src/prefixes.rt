//! The columns of a decorator's prefixes.
ghost use Rattle.std.specs.Prelude.{◌≡◌};
ghost use Rattle.html_render_tree.specs.PageLines.{prefix_columns};

use render_sizes::Prefixes;
use std::alloc::{AllocError, Global};
use text_decorators::TextDecorator;
use text_lines::columns_of;

/// The prefixes of a decorator.
#[derive(Drop)]
pub struct DecoratorPrefixes<D: TextDecorator> {
    decorator: D,
    alloc: Global,
}

impl<D: TextDecorator + Drop> DecoratorPrefixes<D> {
    pub(crate) fn new(alloc: Global, decorator: D) -> DecoratorPrefixes<D>
        ensures { result.decorator ≡ decorator }
    {
        DecoratorPrefixes { decorator, alloc }
    }

    pub(crate) fn into_decorator(self) -> D
        ensures { result ≡ self.decorator }
    {
        self.decorator
    }
}

impl<D: TextDecorator + Drop> Prefixes for DecoratorPrefixes<D> {
    ghost use Rattle.html_render_tree.specs.PageLines.{prefix_columns};

    ghost columns = { λ p. prefix_columns (D.view.text (D.view.held p.decorator)) };

    fn heading(&self, level: u8) -> Result<usize, AllocError> {
        let prefix = self
            .decorator
            .header_prefix(self.alloc, usize::from(level))?;
        Ok(columns_of(prefix.as_str()))
    }

    fn quote(&self) -> Result<usize, AllocError> {
        let prefix = self.decorator.quote_prefix(self.alloc)?;
        Ok(columns_of(prefix.as_str()))
    }

    fn bullet(&self) -> Result<usize, AllocError> {
        let prefix = self.decorator.unordered_item_prefix(self.alloc)?;
        Ok(columns_of(prefix.as_str()))
    }

    fn numbers(&self, first: i64, items: usize) -> Result<usize, AllocError> {
        let further = items.saturating_sub(1) as u64;
        let last = first.saturating_add_unsigned(further);
        let front = self.decorator.ordered_item_prefix(self.alloc, first)?;
        let back = self.decorator.ordered_item_prefix(self.alloc, last)?;
        Ok(columns_of(front.as_str()).max(columns_of(back.as_str())))
    }
}
