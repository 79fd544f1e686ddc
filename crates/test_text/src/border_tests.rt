use crate::checks::{holds, passes};
use std::alloc::{AllocError, Global};
use text_borders::{BorderHoriz, BorderSegHoriz, RenderLine};
use text_lines::TaggedLine;

/// What is done to a border.
pub(crate) enum Step {
    Above(usize),
    Below(usize),
    Stretch(usize),
    /// Takes in a border of three columns with a join in its middle.
    FromBelow(usize),
    FromAbove(usize),
    Hole(usize, &'static str),
}

/// A border, joined to lines and with holes as the steps say.
pub(crate) fn changed(
    alloc: Global,
    border: BorderHoriz<()>,
    steps: &[Step],
) -> Result<BorderHoriz<()>, AllocError> {
    let mut border = border;
    for step in steps {
        match step {
            Step::Above(column) => border.join_above(*column)?,
            Step::Below(column) => border.join_below(*column)?,
            Step::Stretch(width) => border.stretch_to(*width)?,
            Step::FromBelow(place) => {
                let mut other = BorderHoriz::new(alloc, 3, ())?;
                other.join_above(1)?;
                border.merge_from_below(&other, *place)?
            }
            Step::FromAbove(place) => {
                let mut other = BorderHoriz::new(alloc, 3, ())?;
                other.join_below(1)?;
                border.merge_from_above(&other, *place)?
            }
            Step::Hole(place, text) => border.punch(*place, line_of(alloc, text)?)?,
        }
    }
    Ok(border)
}

/// A line of that text.
pub(crate) fn line_of(alloc: Global, text: &str) -> Result<TaggedLine<()>, AllocError> {
    TaggedLine::from_string(alloc, String::from_str(alloc, text)?, &())
}

/// Whether a border is of slashes, its columns, steps, how it is drawn then, the lines that come down on it (to `┴`,
/// `┼`, `└` and `┘`), and whether it has holes; rows of tables as html2text draws them, and corners.
type Row = (
    bool,
    usize,
    &'static [Step],
    &'static str,
    &'static str,
    bool,
);

static ROWS: [Row; 14] = [
    (false, 0, &[], "", "", false),
    (false, 3, &[], "───", "   ", false),
    (
        false,
        5,
        &[Step::Below(1), Step::Below(3)],
        "─┬─┬─",
        "     ",
        false,
    ),
    (
        false,
        5,
        &[Step::Above(1), Step::Above(3)],
        "─┴─┴─",
        " │ │ ",
        false,
    ),
    (
        false,
        3,
        &[Step::Below(1), Step::Above(1)],
        "─┼─",
        " │ ",
        false,
    ),
    (false, 1, &[Step::Below(2)], "──┬", "   ", false),
    (
        false,
        2,
        &[Step::Stretch(4), Step::Stretch(3)],
        "────",
        "    ",
        false,
    ),
    (
        false,
        5,
        &[Step::Below(0), Step::FromBelow(1)],
        "┬─┬──",
        "     ",
        false,
    ),
    (
        false,
        5,
        &[Step::Below(2), Step::FromAbove(1)],
        "──┼──",
        "  │  ",
        false,
    ),
    (
        false,
        3,
        &[Step::Below(1), Step::Above(1), Step::Hole(0, " ")],
        " ├─",
        "   ",
        true,
    ),
    (
        false,
        7,
        &[
            Step::Above(1),
            Step::Below(3),
            Step::Hole(2, "x"),
            Step::Hole(4, "漢"),
        ],
        "─┘x│漢─",
        " │     ",
        true,
    ),
    (false, 2, &[Step::Hole(1, "abc")], "─abc", "    ", true),
    (
        false,
        5,
        &[Step::Above(1), Step::Below(3), Step::Hole(4, "x")],
        "─┴─┐x",
        " │   ",
        true,
    ),
    (
        true,
        3,
        &[Step::Above(1), Step::Below(2)],
        "///",
        "   ",
        false,
    ),
];

fn border_of(alloc: Global, slashes: bool, width: usize) -> Result<BorderHoriz<()>, AllocError> {
    if slashes {
        BorderHoriz::new_slashes(alloc, width, ())
    } else {
        BorderHoriz::new(alloc, width, ())
    }
}

// whether a border is a line of that text, and its copy one of so many columns
fn is_drawn(alloc: Global, border: BorderHoriz<()>, text: &str) -> Result<bool, AllocError> {
    let wide = border.width();
    let copy = border.try_clone()?.into_tagged_line()?;
    let is_wide = copy.width() == wide && copy == line_of(alloc, text)?;
    Ok(is_wide && border.into_tagged_line()? == copy)
}

fn is_row(alloc: Global, row: &Row) -> Result<bool, AllocError> {
    let (slashes, width, steps, text, above, has_holes) = *row;
    let border = changed(alloc, border_of(alloc, slashes, width)?, steps)?;
    let is_above = border.lines_above(&())? == line_of(alloc, above)?;
    Ok(is_above && border.has_holes() == has_holes && is_drawn(alloc, border, text)?)
}

#[test]
fn borders_are_drawn(rt: HostRuntime) {
    for row in &ROWS {
        passes(&rt, is_row(rt.alloc(), row), row.3);
    }
}

/// Each segment without its left arm, and without its right one.
static CHOPPED: [(BorderSegHoriz, char, char, char); 12] = [
    (BorderSegHoriz::Horiz, '─', '─', '─'),
    (BorderSegHoriz::JoinAbove, '┴', '└', '┘'),
    (BorderSegHoriz::JoinBelow, '┬', '┌', '┐'),
    (BorderSegHoriz::JoinCross, '┼', '├', '┤'),
    (BorderSegHoriz::Vert, '│', '│', '│'),
    (BorderSegHoriz::HorizVert, '/', '/', '/'),
    (BorderSegHoriz::JoinLeft, '┤', '│', '┤'),
    (BorderSegHoriz::JoinRight, '├', '├', '│'),
    (BorderSegHoriz::CornerTL, '┌', '┌', '│'),
    (BorderSegHoriz::CornerTR, '┐', '│', '┐'),
    (BorderSegHoriz::CornerBL, '└', '└', '│'),
    (BorderSegHoriz::CornerBR, '┘', '│', '┘'),
];

#[test]
fn segments_lose_an_arm(rt: HostRuntime) {
    for (segment, whole, left_off, right_off) in &CHOPPED {
        let mut left = *segment;
        left.chop_left();
        let mut right = *segment;
        right.chop_right();
        let is_so = segment.glyph() == *whole && left.glyph() == *left_off;
        holds(&rt, is_so && right.glyph() == *right_off, "a segment");
    }
}

/// A line of a block.
pub(crate) enum Line {
    Text(&'static str),
    /// A border of so many columns, which the steps change.
    Border(usize, &'static [Step]),
}

/// The line that is so made.
pub(crate) fn line_made(alloc: Global, line: &Line) -> Result<RenderLine<()>, AllocError> {
    match line {
        Line::Text(text) => Ok(RenderLine::Text(line_of(alloc, text)?)),
        Line::Border(width, steps) => {
            let border = BorderHoriz::new(alloc, *width, ())?;
            Ok(RenderLine::Line(changed(alloc, border, steps)?))
        }
    }
}

/// A line of three columns, columns, and its text where it is widened to those.
type Widened = (Line, usize, &'static str);

static WIDENED: [Widened; 4] = [
    (Line::Border(3, &[Step::Below(1)]), 3, "─┬─"),
    (Line::Border(3, &[Step::Below(1)]), 4, "─┬──"),
    (Line::Text("漢a"), 3, "漢a"),
    (Line::Text("漢a"), 5, "漢a  "),
];

fn is_widened(alloc: Global, row: &Widened) -> Result<bool, AllocError> {
    let line = line_made(alloc, &row.0)?;
    let is_three = line.width() == 3;
    let wide = line.try_clone()?.into_widened(alloc, row.1, &())?;
    let is_so = is_three && wide == line_of(alloc, row.2)?;
    Ok(is_so && line.into_widened(alloc, row.1, &())? == wide)
}

#[test]
fn lines_of_blocks_are_widened(rt: HostRuntime) {
    for row in &WIDENED {
        passes(&rt, is_widened(rt.alloc(), row), row.2);
    }
}
