//! The sets of elements that tree construction asks for.
ghost use Rattle.std.specs.Prelude.{◌≡◌};
ghost use Rattle.tree_names.specs.Sets.{is_element_of};
ghost use Rattle.tree_names.specs.Wanted.{barriers_of, elements_of, is_implied, one};

use crate::element_sets::{
    has_implied_end_tag, is_button_scope_barrier, is_heading, is_list_item_scope_barrier,
    is_scope_barrier, is_table_body_context, is_table_cell, is_table_context, is_table_row_context,
    is_table_scope_barrier, is_table_section,
};
use crate::sets::{is_html, is_html_one_of};
use html_lexemes::{LocalName, Namespace, QualName};

/// Up to where an element counts as open (WHATWG HTML, 13.2.4.2).
#[derive(Clone, Copy)]
pub enum Scope {
    /// Scope without more said.
    Default,
    /// List item scope.
    ListItemScope,
    /// Button scope.
    ButtonScope,
    /// Table scope.
    TableScope,
}

impl Scope {
    /// Whether the scope ends at an element.
    pub fn ends_at(self, name: &QualName) -> bool
        ensures { result ≡ is_element_of (barriers_of self) name.now }
    {
        match self {
            Scope::Default => is_scope_barrier(name),
            Scope::ListItemScope => is_list_item_scope_barrier(name),
            Scope::ButtonScope => is_button_scope_barrier(name),
            Scope::TableScope => is_table_scope_barrier(name),
        }
    }
}

/// Elements of HTML that tree construction asks for: one, or some that it treats alike.
#[derive(Clone, Copy)]
pub enum ElementSet<'a> {
    /// The element of a tag's name.
    Named(&'a LocalName),
    Body,
    Button,
    Caption,
    ColumnGroup,
    /// `dd` and `dt`.
    Definition,
    Form,
    /// `h1` to `h6`.
    Heading,
    Html,
    ListItem,
    NoBreak,
    /// No element.
    Nothing,
    OptionGroup,
    OptionItem,
    Paragraph,
    Ruby,
    RubyTextContainer,
    Select,
    Table,
    /// Where clearing back to a table body stops (WHATWG HTML, 13.2.6.4.13).
    TableBodyContext,
    /// `td` and `th`.
    TableCell,
    /// Where clearing back to a table stops (13.2.6.4.9).
    TableContext,
    TableRow,
    /// Where clearing back to a table row stops (13.2.6.4.14).
    TableRowContext,
    /// `tbody`, `tfoot` and `thead`.
    TableSection,
    Template,
}

impl ElementSet<'_> {
    /// Whether an element is one of the set.
    pub fn contains(self, name: &QualName) -> bool
        ensures { result ≡ is_element_of (elements_of self.entry) name.now }
    {
        match self {
            ElementSet::Named(word) => is_named(name, word),
            ElementSet::Body => is_html(name, "body"),
            ElementSet::Button => is_html(name, "button"),
            ElementSet::Caption => is_html(name, "caption"),
            ElementSet::ColumnGroup => is_html(name, "colgroup"),
            ElementSet::Definition => is_html_one_of(name, &["dd", "dt"]),
            ElementSet::Form => is_html(name, "form"),
            ElementSet::Heading => is_heading(name),
            ElementSet::Html => is_html(name, "html"),
            ElementSet::ListItem => is_html(name, "li"),
            ElementSet::NoBreak => is_html(name, "nobr"),
            ElementSet::Nothing => false,
            ElementSet::OptionGroup => is_html(name, "optgroup"),
            ElementSet::OptionItem => is_html(name, "option"),
            ElementSet::Paragraph => is_html(name, "p"),
            ElementSet::Ruby => is_html(name, "ruby"),
            ElementSet::RubyTextContainer => is_html(name, "rtc"),
            ElementSet::Select => is_html(name, "select"),
            ElementSet::Table => is_html(name, "table"),
            ElementSet::TableBodyContext => is_table_body_context(name),
            ElementSet::TableCell => is_table_cell(name),
            ElementSet::TableContext => is_table_context(name),
            ElementSet::TableRow => is_html(name, "tr"),
            ElementSet::TableRowContext => is_table_row_context(name),
            ElementSet::TableSection => is_table_section(name),
            ElementSet::Template => is_html(name, "template"),
        }
    }

    /// Whether an element's end tag is implied and it is none of the set (WHATWG HTML, 13.2.6.3).
    pub fn lets_close(self, name: &QualName) -> bool
        ensures { result ≡ is_implied (elements_of self.entry) name.now }
    {
        has_implied_end_tag(name) && !self.contains(name)
    }
}

// an element of HTML has this name
fn is_named(name: &QualName, word: &LocalName) -> bool
    ensures { result ≡ is_element_of (one word.now) name.now }
{
    match name.ns {
        Namespace::Html => name.local == *word,
        Namespace::MathMl | Namespace::Svg | Namespace::Other(_) => false,
    }
}
