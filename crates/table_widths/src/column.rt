//! A column by its least width and its share.
ghost use Rattle.std.specs.Prelude.{◌≡◌, ◌+◌, ◌-◌, nat_le, nat_lt, nat_eq, ◌&&◌, ◌||◌, if◌then◌else◌};
ghost use Rattle.table_widths.specs.Widths.{is_equal, part_at, slack_of};

/// A column of a table, in columns of text.
#[derive(Clone, Copy, Debug, PartialEq, Eq)]
pub struct ColumnShare {
    /// The least width that it can do with.
    pub least: usize,
    /// Its share of the table's width, at least its least.
    pub share: usize,
}

impl ColumnShare {
    /// How far the column can be lowered.
    pub(crate) fn slack(&self) -> usize
        ensures { result ≡ slack_of self.now }
    {
        self.share.saturating_sub(self.least)
    }

    /// Whether the column stands at the level, with this least.
    pub(crate) fn is_at(&self, level: usize, least: usize) -> bool
        ensures { result ≡ is_equal level least self.now }
    {
        level <= self.slack() && least == self.least
    }

    /// Whether the column stands at the level and loses one more, where `left` of those on the edge do.
    pub(crate) fn loses(&self, level: usize, edge: usize, left: u128) -> bool
        ensures { result ≡ (nat_le level (slack_of self.now)
            && (nat_lt edge self.now.least || (nat_eq edge self.now.least && nat_lt 0 left))) }
    {
        level <= self.slack() && (edge < self.least || (edge == self.least && 0 < left))
    }

    /// The column's width at the level.
    pub(crate) fn width(&self, level: usize, loses: bool) -> usize
        ensures { result ≡ self.now.least + part_at level self.now - (if loses then 1 else 0) }
    {
        let slack = self.slack();
        let own = *self;
        let full = own.least + slack.min(level);
        full.saturating_sub(loses as usize)
    }
}
