//! Why a value is no article.

/// The first fault of a value, in the order in which it is written: the title first, and each value before what it
/// holds. Of the faults at one value, the one that stands first below.
#[derive(Clone, Copy, Debug, PartialEq, Eq, thiserror::Error)]
pub enum ArticleError {
    /// A [`Text`](crate::Inline::Text) without a character: no page holds one.
    #[error("an empty text")]
    EmptyText,
    /// A [`Text`](crate::Inline::Text) just after another: in a page the two are one text.
    #[error("two texts side by side")]
    NeighbourTexts,
    /// A NUL or a carriage return in a text, a title or the target of a link: a page's reader changes both.
    #[error("a NUL or carriage return")]
    ForbiddenCharacter,
    /// A [`Link`](crate::Inline::Link) in another, however deep: in a page a link ends where the next begins.
    #[error("a link in a link")]
    LinkInLink,
    /// The level of a [`Heading`](crate::Block::Heading) is not 1 to 6.
    #[error("a heading's level is not 1 to 6")]
    BadLevel,
    /// [`Bullets`](crate::Block::Bullets) or [`Numbers`](crate::Block::Numbers) without an item.
    #[error("a list without items")]
    EmptyList,
    /// More than 256 values stand in one another. Each block and each inline is a value, an item of a list is none.
    #[error("more than 256 values in one another")]
    TooDeep,
    /// A growth was refused since allocation fails. [`Article::new`](crate::Article::new) takes no memory, so it never
    /// answers this.
    #[error("out of memory")]
    Memory,
}
