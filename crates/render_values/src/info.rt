//! What a render value is.
ghost use Rattle.std.specs.Prelude.{◌≡◌, IfOk};

use crate::style::RenderStyle;
use crate::title::Title;
use html_lexemes::Text;
use std::alloc::AllocError;
use std::fmt::{Display, Error, Formatter, Write};

/// The kind of a value.
#[derive(Debug, Drop)]
pub enum RenderInfo {
    /// Nothing but the fragment that starts here.
    Nothing,
    /// Inline text.
    Text(Text),
    /// An image.
    Image {
        /// Where it is; empty for a drawing that stands in the page.
        source: Text,
        /// The text that stands for it.
        title: Title,
    },
    /// A line break.
    Break,
    /// A rule across the block.
    Rule,
    /// Values in a row.
    Container,
    /// A link to a target.
    Link(Text),
    /// Emphasis.
    Emphasis,
    /// Strong text.
    Strong,
    /// Text that is struck out.
    Strikeout,
    /// Code.
    Code,
    /// Superscript.
    Superscript,
    /// A paragraph: a block with empty lines around it.
    Block,
    /// A block that starts and ends a line.
    Division,
    /// A heading of a level, 1 to 6.
    Heading(u8),
    /// A quotation.
    Quote,
    /// Preformatted text.
    Preformatted,
    /// A list with a mark before each item.
    Bullets,
    /// A list with a number before each item, and the first one's.
    Numbers(i64),
    /// A list of descriptions.
    Descriptions,
    /// What a description is of.
    Term,
    /// A description.
    Details,
    /// A table.
    Table,
    /// Rows of a table.
    TableGroup,
    /// A row of a table.
    TableRow,
    /// A cell of a table.
    TableCell {
        /// How many columns it spans, at least one.
        columns: usize,
        /// How many rows it spans, at least one.
        rows: usize,
    },
}

/// What a value is, apart from what stands in it.
#[derive(Debug, Drop)]
pub struct Head {
    /// Its kind.
    pub info: RenderInfo,
    /// How it looks.
    pub style: RenderStyle,
    /// The name of the fragment that starts in it.
    pub fragment: Option<Text>,
}

impl RenderInfo {
    /// An equal kind. The error is allocation failure alone.
    pub fn try_clone(&self) -> Result<RenderInfo, AllocError>
        ensures { IfOk result (λ copy. copy ≡ self.now) }
    {
        Ok(match self {
            RenderInfo::Nothing => RenderInfo::Nothing,
            RenderInfo::Text(text) => RenderInfo::Text(text.try_clone()?),
            RenderInfo::Image { source, title } => RenderInfo::Image {
                source: source.try_clone()?,
                title: title.try_clone()?,
            },
            RenderInfo::Break => RenderInfo::Break,
            RenderInfo::Rule => RenderInfo::Rule,
            RenderInfo::Container => RenderInfo::Container,
            RenderInfo::Link(target) => RenderInfo::Link(target.try_clone()?),
            RenderInfo::Emphasis => RenderInfo::Emphasis,
            RenderInfo::Strong => RenderInfo::Strong,
            RenderInfo::Strikeout => RenderInfo::Strikeout,
            RenderInfo::Code => RenderInfo::Code,
            RenderInfo::Superscript => RenderInfo::Superscript,
            RenderInfo::Block => RenderInfo::Block,
            RenderInfo::Division => RenderInfo::Division,
            RenderInfo::Heading(level) => RenderInfo::Heading(*level),
            RenderInfo::Quote => RenderInfo::Quote,
            RenderInfo::Preformatted => RenderInfo::Preformatted,
            RenderInfo::Bullets => RenderInfo::Bullets,
            RenderInfo::Numbers(first) => RenderInfo::Numbers(*first),
            RenderInfo::Descriptions => RenderInfo::Descriptions,
            RenderInfo::Term => RenderInfo::Term,
            RenderInfo::Details => RenderInfo::Details,
            RenderInfo::Table => RenderInfo::Table,
            RenderInfo::TableGroup => RenderInfo::TableGroup,
            RenderInfo::TableRow => RenderInfo::TableRow,
            RenderInfo::TableCell { columns, rows } => RenderInfo::TableCell {
                columns: *columns,
                rows: *rows,
            },
        })
    }
}

impl Display for RenderInfo {
    fn fmt<W: Write>(&self, f: &mut Formatter<W>) -> Result<(), Error> {
        match self {
            RenderInfo::Text(text) => write!(f, "text {:?}", text.as_str()),
            RenderInfo::Image { source, title } => {
                write!(f, "image {:?} at {:?}", title.as_str(), source.as_str())
            }
            RenderInfo::Link(target) => write!(f, "link to {:?}", target.as_str()),
            RenderInfo::Heading(level) => write!(f, "heading {level}"),
            RenderInfo::Numbers(first) => write!(f, "numbers from {first}"),
            RenderInfo::TableCell { columns, rows } => write!(f, "cell of {columns} by {rows}"),
            _ => write!(f, "{}", word(self)),
        }
    }
}

// the word for a kind that is nothing more
fn word(info: &RenderInfo) -> &'static str {
    match info {
        RenderInfo::Nothing => "nothing",
        RenderInfo::Text(_) => "text",
        RenderInfo::Image { .. } => "image",
        RenderInfo::Break => "break",
        RenderInfo::Rule => "rule",
        RenderInfo::Container => "container",
        RenderInfo::Link(_) => "link",
        RenderInfo::Emphasis => "emphasis",
        RenderInfo::Strong => "strong",
        RenderInfo::Strikeout => "strikeout",
        RenderInfo::Code => "code",
        RenderInfo::Superscript => "superscript",
        RenderInfo::Block => "block",
        RenderInfo::Division => "division",
        RenderInfo::Heading(_) => "heading",
        RenderInfo::Quote => "quote",
        RenderInfo::Preformatted => "preformatted",
        RenderInfo::Bullets => "bullets",
        RenderInfo::Numbers(_) => "numbers",
        RenderInfo::Descriptions => "descriptions",
        RenderInfo::Term => "term",
        RenderInfo::Details => "details",
        RenderInfo::Table => "table",
        RenderInfo::TableGroup => "group",
        RenderInfo::TableRow => "row",
        RenderInfo::TableCell { .. } => "cell",
    }
}

fn copied(text: &Option<Text>) -> Result<Option<Text>, AllocError>
    ensures { IfOk result (λ copy. copy ≡ text.now) }
{
    match text {
        Some(text) => Ok(Some(text.try_clone()?)),
        None => Ok(None),
    }
}

impl Head {
    /// An equal head. The error is allocation failure alone.
    pub fn try_clone(&self) -> Result<Head, AllocError>
        ensures { IfOk result (λ copy. copy ≡ self.now) }
    {
        Ok(Head {
            info: self.info.try_clone()?,
            style: self.style,
            fragment: copied(&self.fragment)?,
        })
    }
}

impl Display for Head {
    fn fmt<W: Write>(&self, f: &mut Formatter<W>) -> Result<(), Error> {
        if let Some(name) = &self.fragment {
            write!(f, "({:?}) ", name.as_str())?;
        }
        write!(f, "{}", self.info)?;
        if let Some(colour) = self.style.colour {
            write!(f, " in {colour}")?;
        }
        if let Some(colour) = self.style.background {
            write!(f, " on {colour}")?;
        }
        if let Some(white_space) = self.style.white_space {
            write!(f, " with {white_space:?}")?;
        }
        Ok(())
    }
}
