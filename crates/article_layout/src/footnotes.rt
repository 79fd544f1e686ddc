//! The targets of links, after the last block.
ghost use Rattle.std.specs.Prelude.{◌≡◌, ◌++◌, chars, map, string_bytes, IfOk, OnOk};
ghost use Rattle.article_layout.specs.Lines.{line_of, tag_of};
ghost use Rattle.article_layout.specs.Seen.{lines_of};
ghost use Rattle.article_layout.specs.Settings.{options_of};
ghost use Rattle.article_layout.specs.Walks.{with_notes};
ghost use Rattle.article_definitions.specs.Layouts.{note_line, notes};
ghost use Rattle.text_footnotes.specs.Footnotes.{footnote_lines};
ghost use Rattle.text_footnotes.specs.Links.{all_targets};
ghost use Rattle.text_lines.specs.Tagged.{line_items, tagged};
ghost use Rattle.text_decorators.specs.Texts.{footnote_text};
ghost use Rattle.text_pieces.specs.Sources.{names};

use crate::line_list::{Line, LineList, fill};
use crate::options::Room;
use std::alloc::{AllocError, Global};
use text_footnotes::{LinkTargets, footnote_lines, links_share_footnotes, shown_targets};
use text_lines::TaggedLine;
use text_pieces::has_text;

/// Adds the targets that have footnotes as a block of their own, where they stand after the article and there are any.
pub(crate) fn add_footnotes(
    alloc: Global,
    room: Room,
    targets: LinkTargets,
    lines: &mut LineList,
) -> Result<(), AllocError>
    ensures { OnOk result (lines_of lines.new
        ≡ with_notes (options_of room.options) room.width (all_targets targets) (lines_of lines.old)) }
{
    links_share_footnotes();
    if !room.options.footnotes {
        return Ok(());
    }
    let noted = targets.into_noted(room.options.shares_footnotes)?;
    if noted.is_empty() {
        return Ok(());
    }
    lines.part(alloc, room)?;
    let shown = shown_targets(noted, room.options.prints_targets)?;
    add_notes(alloc, room, shown.as_slice(), lines)
}

/// Adds the targets, numbered from 1 on.
fn add_notes(
    alloc: Global,
    room: Room,
    targets: &[String],
    lines: &mut LineList,
) -> Result<(), AllocError>
    ensures { OnOk result (lines_of lines.new ≡ lines_of lines.old
        ++ notes (options_of room.options) room.width (names targets.now)) }
{
    let mut number: usize = 0;
    'targets: for target in targets {
        number += 1;
        add_note(alloc, room, number, target.as_str(), lines)?;
    }
    Ok(())
}

fn note_text(alloc: Global, number: usize, target: &str) -> Result<String, AllocError>
    ensures { IfOk result (λ s. chars (string_bytes s) ≡ footnote_text number (chars target.now)) }
{
    format!(in alloc; "[{number}]: {target}")
}

fn add_note(
    alloc: Global,
    room: Room,
    number: usize,
    target: &str,
    lines: &mut LineList,
) -> Result<(), AllocError>
    ensures { OnOk result (lines_of lines.new ≡ lines_of lines.old
        ++ map (note_line (options_of room.options) room.width) (footnote_lines room.options.wraps_links room.width
        (tagged (footnote_text number (chars target.now)) tt))) }
{
    let text = TaggedLine::from_string(alloc, note_text(alloc, number, target)?, &())?;
    let cut_at = if room.options.wraps_links {
        Some(room.width)
    } else {
        None
    };
    for line in footnote_lines(alloc, cut_at, &text)? {
        lines.push(note_line(alloc, room, line)?)?;
    }
    Ok(())
}

fn note_line(alloc: Global, room: Room, line: TaggedLine<Vec<()>>) -> Result<Line, AllocError>
    ensures { IfOk result (λ note. line_of note
        ≡ note_line (options_of room.options) room.width (line_items tag_of line)) }
{
    let outermost = Vec::new(alloc);
    let content = has_text(&line);
    let mut line = line;
    fill(&mut line, room.options.pads, room.wrap_width(), &outermost)?;
    fill(&mut line, room.options.pads, room.width, &outermost)?;
    Ok(Line {
        line,
        content,
        paragraph: None,
    })
}
