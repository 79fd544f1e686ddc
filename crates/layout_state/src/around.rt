/// What stands before an item of a list.
#[derive(Clone, Copy, Debug, PartialEq, Eq)]
pub enum ItemMark {
    /// A mark.
    Bullet,
    /// Its number.
    Number(i64),
}

/// What a list around says of the next value.
#[derive(Clone, Copy, Debug, PartialEq, Eq)]
pub enum Around {
    /// Nothing: no list is around.
    Flow,
    /// It is an item.
    Items {
        /// What stands before it.
        mark: ItemMark,
        /// The columns of that, of all items alike.
        columns: usize,
        /// How many columns the list asks for.
        least: usize,
    },
}
