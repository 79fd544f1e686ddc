//! Segments of borders.
ghost use Rattle.std.specs.Prelude.{◌≡◌};
ghost use Rattle.std.specs.Option.{option_map};
ghost use Rattle.text_borders.specs.Segments.{glyph_of, joins_above, joins_below, runs_above, segment_of, with_down};
ghost use Rattle.text_borders.specs.Segments.{with_up, without_left, without_right};

/// A segment of a border, one column of it. But for the slash, it is a set of arms: up, down, left and right.
#[derive(Clone, Copy, Debug, PartialEq, Eq)]
pub enum BorderSegHoriz {
    /// `─`.
    Horiz,
    /// `┴`.
    JoinAbove,
    /// `┬`.
    JoinBelow,
    /// `┼`.
    JoinCross,
    /// `│`.
    Vert,
    /// `/`, between cells that stand below one another; it never changes.
    HorizVert,
    /// `┤`.
    JoinLeft,
    /// `├`.
    JoinRight,
    /// `┌`.
    CornerTL,
    /// `┐`.
    CornerTR,
    /// `└`.
    CornerBL,
    /// `┘`.
    CornerBR,
}

impl BorderSegHoriz {
    /// Takes the left arm off. A horizontal line stays as it is, and what has no horizontal arm left becomes `│`.
    pub fn chop_left(&mut self)
        ensures { segment_of self.new ≡ option_map without_left (segment_of self.old) }
    {
        *self = match *self {
            BorderSegHoriz::JoinBelow => BorderSegHoriz::CornerTL,
            BorderSegHoriz::JoinAbove => BorderSegHoriz::CornerBL,
            BorderSegHoriz::JoinCross => BorderSegHoriz::JoinRight,
            BorderSegHoriz::JoinLeft | BorderSegHoriz::CornerTR | BorderSegHoriz::CornerBR => {
                BorderSegHoriz::Vert
            }
            same => same,
        };
    }

    /// Takes the right arm off, as `chop_left`.
    pub fn chop_right(&mut self)
        ensures { segment_of self.new ≡ option_map without_right (segment_of self.old) }
    {
        *self = match *self {
            BorderSegHoriz::JoinBelow => BorderSegHoriz::CornerTR,
            BorderSegHoriz::JoinAbove => BorderSegHoriz::CornerBR,
            BorderSegHoriz::JoinCross => BorderSegHoriz::JoinLeft,
            BorderSegHoriz::JoinRight | BorderSegHoriz::CornerTL | BorderSegHoriz::CornerBL => {
                BorderSegHoriz::Vert
            }
            same => same,
        };
    }

    /// Adds the arm up.
    pub fn join_above(&mut self)
        ensures { segment_of self.new ≡ option_map with_up (segment_of self.old) }
    {
        *self = match *self {
            BorderSegHoriz::Horiz => BorderSegHoriz::JoinAbove,
            BorderSegHoriz::JoinBelow => BorderSegHoriz::JoinCross,
            BorderSegHoriz::CornerTL => BorderSegHoriz::JoinRight,
            BorderSegHoriz::CornerTR => BorderSegHoriz::JoinLeft,
            same => same,
        };
    }

    /// Adds the arm down.
    pub fn join_below(&mut self)
        ensures { segment_of self.new ≡ option_map with_down (segment_of self.old) }
    {
        *self = match *self {
            BorderSegHoriz::Horiz => BorderSegHoriz::JoinBelow,
            BorderSegHoriz::JoinAbove => BorderSegHoriz::JoinCross,
            BorderSegHoriz::CornerBL => BorderSegHoriz::JoinRight,
            BorderSegHoriz::CornerBR => BorderSegHoriz::JoinLeft,
            same => same,
        };
    }

    /// Whether a border above that takes this one in is joined below here: `┴ ┬ ┼ └ ┘`.
    pub fn joins_below(&self) -> bool
        ensures { result ≡ joins_below (segment_of self.now) }
    {
        matches!(
            self,
            BorderSegHoriz::JoinAbove
                | BorderSegHoriz::JoinBelow
                | BorderSegHoriz::JoinCross
                | BorderSegHoriz::CornerBL
                | BorderSegHoriz::CornerBR
        )
    }

    /// Whether a border below that takes this one in is joined above here: `┴ ┬ ┼ ┌ ┐`.
    pub fn joins_above(&self) -> bool
        ensures { result ≡ joins_above (segment_of self.now) }
    {
        matches!(
            self,
            BorderSegHoriz::JoinAbove
                | BorderSegHoriz::JoinBelow
                | BorderSegHoriz::JoinCross
                | BorderSegHoriz::CornerTL
                | BorderSegHoriz::CornerTR
        )
    }

    /// Whether a vertical line comes down to the segment from above: `┴ ┼ └ ┘`.
    pub fn runs_above(&self) -> bool
        ensures { result ≡ runs_above (segment_of self.now) }
    {
        matches!(
            self,
            BorderSegHoriz::JoinAbove
                | BorderSegHoriz::JoinCross
                | BorderSegHoriz::CornerBL
                | BorderSegHoriz::CornerBR
        )
    }

    /// The character that shows the segment.
    pub fn glyph(&self) -> char
        ensures { result ≡ glyph_of (segment_of self.now) }
    {
        match self {
            BorderSegHoriz::Horiz => '─',
            BorderSegHoriz::JoinAbove => '┴',
            BorderSegHoriz::JoinBelow => '┬',
            BorderSegHoriz::JoinCross => '┼',
            BorderSegHoriz::Vert => '│',
            BorderSegHoriz::HorizVert => '/',
            BorderSegHoriz::JoinLeft => '┤',
            BorderSegHoriz::JoinRight => '├',
            BorderSegHoriz::CornerTL => '┌',
            BorderSegHoriz::CornerTR => '┐',
            BorderSegHoriz::CornerBL => '└',
            BorderSegHoriz::CornerBR => '┘',
        }
    }
}
