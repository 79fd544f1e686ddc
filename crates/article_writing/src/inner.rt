//! What stands in an element.

use article_values::{Block, Inline};

/// What stands in an element of an article's page.
#[derive(Clone, Copy)]
pub(crate) enum Inner<'a> {
    /// Inlines: in a paragraph, a heading, a mark or a link.
    Inlines(&'a [Inline]),
    /// Blocks: in the body, a division, a quote or an item.
    Blocks(&'a [Block]),
    /// The items of a list.
    Items(&'a [Vec<Block>]),
    /// Characters: in the title.
    Text(&'a str),
    /// The title, where there is one: in the head.
    Head(Option<&'a str>),
    /// The head, with the title, and the body: in the root element.
    Root(Option<&'a str>, &'a [Block]),
}
