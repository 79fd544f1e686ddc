//! The insertion modes, and which one the open elements ask for.
ghost use Rattle.std.specs.Prelude.{◌≡◌, if◌then◌else◌, option_map};
ghost use Rattle.tree_predicates.specs.Modes.{own_mode, root_mode};

use html_lexemes::QualName;

/// By which rules a token is taken (WHATWG HTML, 13.2.4.1 and 13.2.6.4), in the standard's order.
#[derive(Clone, Copy, PartialEq, Eq)]
pub enum InsertionMode {
    /// Before the doctype (13.2.6.4.1).
    Initial,
    /// Before the root element (13.2.6.4.2).
    BeforeHtml,
    /// Before the head (13.2.6.4.3).
    BeforeHead,
    /// In the head (13.2.6.4.4).
    InHead,
    /// In a `noscript` of the head (13.2.6.4.5).
    InHeadNoscript,
    /// Between the head and the body (13.2.6.4.6).
    AfterHead,
    /// In the body (13.2.6.4.7).
    InBody,
    /// In an element whose contents are text alone (13.2.6.4.8).
    Text,
    /// In a table (13.2.6.4.9).
    InTable,
    /// In text of a table, which is collected (13.2.6.4.10).
    InTableText,
    /// In a table's caption (13.2.6.4.11).
    InCaption,
    /// In a group of a table's columns (13.2.6.4.12).
    InColumnGroup,
    /// In a section of a table (13.2.6.4.13).
    InTableBody,
    /// In a table's row (13.2.6.4.14).
    InRow,
    /// In a table's cell (13.2.6.4.15).
    InCell,
    /// In a template (13.2.6.4.16).
    InTemplate,
    /// After the body (13.2.6.4.17).
    AfterBody,
    /// In a set of frames (13.2.6.4.18).
    InFrameset,
    /// After a set of frames (13.2.6.4.19).
    AfterFrameset,
    /// After a page with a body (13.2.6.4.20).
    AfterAfterBody,
    /// After a page of frames (13.2.6.4.21).
    AfterAfterFrameset,
}

/// Which mode an open element asks for, if any (WHATWG HTML, 13.2.4.1, "reset the insertion mode appropriately").
/// `is_root` says that it is the root, or the context of a fragment in the root's place; `has_head`, that the page's
/// head
/// is known; `template_mode` is the mode of the template that was opened last.
pub fn own_mode(
    name: &QualName,
    is_root: bool,
    has_head: bool,
    template_mode: Option<InsertionMode>,
) -> Option<InsertionMode>
    ensures { result ≡ own_mode name.now is_root has_head template_mode }
{
    if tree_names::is_table_cell(name) && !is_root {
        Some(InsertionMode::InCell)
    } else if tree_names::is_html(name, "tr") {
        Some(InsertionMode::InRow)
    } else if tree_names::is_table_section(name) {
        Some(InsertionMode::InTableBody)
    } else if tree_names::is_html(name, "caption") {
        Some(InsertionMode::InCaption)
    } else if tree_names::is_html(name, "colgroup") {
        Some(InsertionMode::InColumnGroup)
    } else if tree_names::is_html(name, "table") {
        Some(InsertionMode::InTable)
    } else if tree_names::is_html(name, "template") {
        template_mode
    } else if tree_names::is_html(name, "head") && !is_root {
        Some(InsertionMode::InHead)
    } else if tree_names::is_html(name, "body") {
        Some(InsertionMode::InBody)
    } else if tree_names::is_html(name, "frameset") {
        Some(InsertionMode::InFrameset)
    } else if tree_names::is_html(name, "html") {
        Some(mode_of_html(has_head))
    } else {
        None
    }
}

// which mode `html` asks for
fn mode_of_html(has_head: bool) -> InsertionMode
    ensures { result ≡ (if has_head then InsertionMode.AfterHead else InsertionMode.BeforeHead) }
{
    if has_head {
        InsertionMode::AfterHead
    } else {
        InsertionMode::BeforeHead
    }
}

/// Which mode the root asks for, a fragment's by its context; in body where it asks for none.
pub fn root_mode(
    context: Option<&QualName>,
    root: &QualName,
    has_head: bool,
    template_mode: Option<InsertionMode>,
) -> InsertionMode
    ensures { result ≡ root_mode (option_map (λ name. name.now) context.entry) root.now has_head template_mode }
{
    let root = match context {
        Some(context) => context,
        None => root,
    };
    own_mode(root, true, has_head, template_mode).unwrap_or(InsertionMode::InBody)
}
