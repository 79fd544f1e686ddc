use crate::border_tests::{Line, Step, line_made, line_of};
use crate::checks::{holds, passes};
use std::alloc::{AllocError, Global};
use text_borders::{BorderHoriz, RenderLine};
use text_cells::{BlockLines, LaidLine, LineSet, Row, RowLines, lay_across};
use text_lines::TaggedLine;

/// A cell: its columns, the rows that it takes, and its lines.
type Cell = (usize, usize, &'static [Line]);

/// A table, and how it is shown.
struct Table {
    draws: bool,
    collapse: bool,
    /// The columns of the border above.
    above: Option<usize>,
    rows: &'static [&'static [Cell]],
    lines: &'static [&'static str],
}

const JOINED: &[Line] = &[
    Line::Border(3, &[Step::Below(1)]),
    Line::Text("x│y"),
    Line::Border(3, &[Step::Above(1)]),
];

static TABLES: [Table; 5] = [
    Table {
        draws: true,
        collapse: true,
        above: Some(5),
        rows: &[&[
            (1, 1, &[Line::Text("1")]),
            (1, 1, &[Line::Text("2")]),
            (1, 1, &[Line::Text("3")]),
        ]],
        lines: &["─┬─┬─", "1│2│3", "─┴─┴─"],
    },
    Table {
        draws: true,
        collapse: true,
        above: Some(3),
        rows: &[
            &[(1, 2, &[Line::Text("a")]), (1, 1, &[Line::Text("b")])],
            &[(1, 1, &[]), (1, 1, &[Line::Text("c")])],
        ],
        lines: &["─┬─", "a│b", " ├─", " │c", "─┴─"],
    },
    Table {
        draws: true,
        collapse: true,
        above: Some(5),
        rows: &[&[(3, 1, JOINED), (1, 1, &[Line::Text("z")])]],
        lines: &["─┬─┬─", "x│y│z", "─┴─┴─"],
    },
    Table {
        draws: true,
        collapse: false,
        above: Some(5),
        rows: &[&[(3, 1, JOINED), (1, 1, &[Line::Text("z")])]],
        lines: &["───┬─", "─┬─│z", "x│y│ ", "─┴─│ ", "───┴─"],
    },
    Table {
        draws: false,
        collapse: true,
        above: None,
        rows: &[&[(1, 1, &[Line::Text("a")]), (1, 1, &[Line::Text("b")])]],
        lines: &["a b", "─┴─"],
    },
];

#[test]
fn tables_are_drawn(rt: HostRuntime) {
    for table in &TABLES {
        passes(&rt, is_shown(rt.alloc(), table), "a table");
    }
}

/// This one holds also where a request for memory is refused, each in turn: `rt try --test --fail-alloc N`.
#[test]
fn a_refused_table_is_no_panic(rt: HostRuntime) {
    for table in &TABLES {
        holds(&rt, is_shown(rt.alloc(), table) != Ok(false), "a table");
    }
}

/// Whether a table has its lines: those of its rows, each below what stands below the one before, and the border at
/// its end.
fn is_shown(alloc: Global, table: &Table) -> Result<bool, AllocError> {
    let mut wanted = table.lines.iter();
    let mut is_so = true;
    let mut hanging = Vec::new(alloc);
    let mut above = match table.above {
        Some(width) => Some(BorderHoriz::new(alloc, width, ())?),
        None => None,
    };
    for cells in table.rows {
        let laid = laid_cells(alloc, cells)?;
        let Table {
            draws,
            collapse,
            ..
        } = *table;
        let Row {
            above: joined,
            lines,
            below,
            hanging: further,
        } = lay_across(alloc, draws, collapse, &(), above, laid, hanging)?;
        if let Some(border) = joined {
            is_so = is_so && is_text(alloc, &border.into_tagged_line()?, wanted.next())?;
        }
        for line in &lines_of(alloc, lines)? {
            is_so = is_so && is_text(alloc, line, wanted.next())?;
        }
        above = Some(below);
        hanging = further;
    }
    if let Some(border) = above {
        is_so = is_so && is_text(alloc, &border.into_tagged_line()?, wanted.next())?;
    }
    Ok(is_so && wanted.next().is_none())
}

fn is_text(
    alloc: Global,
    line: &TaggedLine<()>,
    wanted: Option<&&str>,
) -> Result<bool, AllocError> {
    match wanted {
        Some(text) => Ok(*line == line_of(alloc, text)?),
        None => Ok(false),
    }
}

fn laid_cells(alloc: Global, cells: &[Cell]) -> Result<Vec<LineSet<()>>, AllocError> {
    let mut laid = Vec::new(alloc);
    for (width, rows, lines) in cells {
        let mut set = Vec::new(alloc);
        for line in *lines {
            set.push(LaidLine {
                line: line_made(alloc, line)?,
                content: true,
            })?;
        }
        laid.push(LineSet {
            width: *width,
            rows: *rows,
            lines: BlockLines::of_lines(set),
        })?;
    }
    Ok(laid)
}

/// The lines of a row, one by one.
fn lines_of(alloc: Global, lines: RowLines<()>) -> Result<Vec<TaggedLine<()>>, AllocError> {
    match lines {
        RowLines::Each(lines) => Ok(lines),
        RowLines::Wide(texts) => {
            let mut lines = Vec::new(alloc);
            for text in texts.into_queue().into_vec() {
                lines.push(text.line)?;
            }
            Ok(lines)
        }
    }
}

#[test]
fn cells_of_many_lines_are_filled(rt: HostRuntime) {
    passes(&rt, are_many_filled(rt.alloc()), "a cell of many lines");
}

/// Whether forty lines are filled in a cell of three columns, stay as they are in another, and are filled again in one
/// of five.
fn are_many_filled(alloc: Global) -> Result<bool, AllocError> {
    let mut lines = BlockLines::new(alloc);
    for _line in 0..40 {
        let line = RenderLine::Text(line_of(alloc, "a")?);
        lines.push(LaidLine {
            line,
            content: true,
        })?;
    }
    for width in &[3, 3, 5] {
        let RowLines::Wide(texts) = row_of(alloc, *width, lines)? else {
            return Ok(false);
        };
        lines = BlockLines::new(alloc);
        lines.push_texts(texts)?;
    }
    let shown = lines.into_vec(alloc)?;
    let mut is_so = shown.len() == 40;
    for laid in shown {
        let text = laid.line.into_text(alloc, &())?;
        is_so = is_so && laid.content && is_text(alloc, &text, Some(&"a    "))?;
    }
    Ok(is_so)
}

/// A row of one cell.
fn row_of(alloc: Global, width: usize, lines: BlockLines<()>) -> Result<RowLines<()>, AllocError> {
    let mut cells = Vec::new(alloc);
    cells.push(LineSet {
        width,
        rows: 1,
        lines,
    })?;
    let hanging = Vec::new(alloc);
    Ok(lay_across(alloc, true, true, &(), None, cells, hanging)?.lines)
}
