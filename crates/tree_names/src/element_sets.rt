//! Tests of an element against a set, which `sets` re-exports.
ghost use Rattle.std.specs.Prelude.{◌≡◌, ℕ, List, map, true};
ghost use Rattle.std.specs.List.{list_all};
ghost use Rattle.lex_base.specs.Known.{all_known, is_known, known_text};
ghost use Rattle.tree_names.specs.Sets.{is_element_of, is_one_of};
ghost use Rattle.tree_names.specs.ElementSets.{address_div_and_p, button_scope_barriers, foster_targets, headings};
ghost use Rattle.tree_names.specs.ElementSets.{implied_end_tags, integration_points, list_item_scope_barriers};
ghost use Rattle.tree_names.specs.ElementSets.{math_ml_text_integration_points, math_ml_texts, raw_text_elements};
ghost use Rattle.tree_names.specs.ElementSets.{scope_barriers, special_elements, svg_contents};
ghost use Rattle.tree_names.specs.ElementSets.{svg_html_integration_points, table_body_context, table_cells};
ghost use Rattle.tree_names.specs.ElementSets.{table_context, table_row_context, table_scope_barriers, table_sections};
ghost use Rattle.tree_names.specs.ElementSets.{table_text_places, void_elements, with_foreign_barriers};

use crate::sets::{is_html_one_of, is_one_of};
use crate::tables::{
    ADDRESS_DIV_AND_P, BUTTON_SCOPE_BARRIERS, FOSTER_TARGETS, HEADINGS, IMPLIED_END_TAGS,
    LIST_ITEM_SCOPE_BARRIERS, SCOPE_BARRIERS, SPECIAL, TABLE_BODY_CONTEXT, TABLE_CONTEXT,
    TABLE_ROW_CONTEXT, TABLE_TEXT_PLACES, VOID, is_html_in, is_in,
};
use html_lexemes::{LocalName, Namespace, QualName};

/// A barrier of scope (WHATWG HTML, 13.2.4.2), `select` among them.
pub fn is_scope_barrier(name: &QualName) -> bool
    ensures { result ≡ is_element_of scope_barriers name.now }
{
    is_barrier(name, &SCOPE_BARRIERS)
}

/// A barrier of list item scope (WHATWG HTML, 13.2.4.2).
pub fn is_list_item_scope_barrier(name: &QualName) -> bool
    ensures { result ≡ is_element_of list_item_scope_barriers name.now }
{
    is_barrier(name, &LIST_ITEM_SCOPE_BARRIERS)
}

/// A barrier of button scope (WHATWG HTML, 13.2.4.2).
pub fn is_button_scope_barrier(name: &QualName) -> bool
    ensures { result ≡ is_element_of button_scope_barriers name.now }
{
    is_barrier(name, &BUTTON_SCOPE_BARRIERS)
}

/// A special element (WHATWG HTML, 13.2.4.2).
pub fn is_special(name: &QualName) -> bool
    ensures { result ≡ is_element_of special_elements name.now }
{
    is_barrier(name, &SPECIAL)
}

/// An integration point by its name alone (WHATWG HTML, 13.2.6): breaking out of foreign content stops there
/// (13.2.6.5).
pub fn is_integration_point(name: &QualName) -> bool
    ensures { result ≡ is_element_of integration_points name.now }
{
    match name.ns {
        Namespace::MathMl => is_math_ml_text(&name.local),
        Namespace::Svg => holds_svg_contents(&name.local),
        Namespace::Html | Namespace::Other(_) => false,
    }
}

/// An integration point of MathML for text (WHATWG HTML, 13.2.6).
pub fn is_math_ml_text_integration_point(name: &QualName) -> bool
    ensures { result ≡ is_element_of math_ml_text_integration_points name.now }
{
    match name.ns {
        Namespace::MathMl => is_math_ml_text(&name.local),
        Namespace::Html | Namespace::Svg | Namespace::Other(_) => false,
    }
}

/// An integration point of SVG for HTML (WHATWG HTML, 13.2.6).
pub fn is_svg_html_integration_point(name: &QualName) -> bool
    ensures { result ≡ is_element_of svg_html_integration_points name.now }
{
    match name.ns {
        Namespace::Svg => holds_svg_contents(&name.local),
        Namespace::Html | Namespace::MathMl | Namespace::Other(_) => false,
    }
}

// a barrier of MathML or SVG, or an element of HTML whose name is in the set of a table
fn is_barrier(name: &QualName, table: &[bool; 142]) -> bool
    ensures { (words : List (List ℕ)) → table.now ≡ map (λ known. is_one_of words (known_text known)) all_known →
        list_all is_known words ≡ true → result ≡ is_element_of (with_foreign_barriers words) name.now }
{
    match name.ns {
        Namespace::Html => is_in(&name.local, table),
        Namespace::MathMl => is_math_ml_barrier(&name.local),
        Namespace::Svg => holds_svg_contents(&name.local),
        Namespace::Other(_) => false,
    }
}

fn is_math_ml_barrier(name: &LocalName) -> bool
    ensures { result ≡ is_one_of scope_barriers.math_ml name.now }
{
    is_one_of(name, &["mi", "mo", "mn", "ms", "mtext", "annotation-xml"])
}

fn is_math_ml_text(name: &LocalName) -> bool
    ensures { result ≡ is_one_of math_ml_texts name.now }
{
    is_one_of(name, &["mi", "mo", "mn", "ms", "mtext"])
}

fn holds_svg_contents(name: &LocalName) -> bool
    ensures { result ≡ is_one_of svg_contents name.now }
{
    is_one_of(name, &["foreignobject", "desc", "title"])
}

/// An element whose end tag is implied (WHATWG HTML, 13.2.6.3).
pub fn has_implied_end_tag(name: &QualName) -> bool
    ensures { result ≡ is_element_of implied_end_tags name.now }
{
    is_html_in(name, &IMPLIED_END_TAGS)
}

/// A barrier of table scope (WHATWG HTML, 13.2.4.2).
pub fn is_table_scope_barrier(name: &QualName) -> bool
    ensures { result ≡ is_element_of table_scope_barriers name.now }
{
    is_html_in(name, &TABLE_CONTEXT)
}

/// An `address`, `div` or `p`: special, and yet passed over where a list item or a definition looks for its like
/// (WHATWG HTML, 13.2.6.4.7).
pub fn is_address_div_or_p(name: &QualName) -> bool
    ensures { result ≡ is_element_of address_div_and_p name.now }
{
    is_html_in(name, &ADDRESS_DIV_AND_P)
}

/// A heading (WHATWG HTML, 13.2.6.4.7).
pub fn is_heading(name: &QualName) -> bool
    ensures { result ≡ is_element_of headings name.now }
{
    is_html_in(name, &HEADINGS)
}

/// Where clearing the stack back to a table context stops (WHATWG HTML, 13.2.6.4.9).
pub fn is_table_context(name: &QualName) -> bool
    ensures { result ≡ is_element_of table_context name.now }
{
    is_html_in(name, &TABLE_CONTEXT)
}

/// Where clearing the stack back to a table body context stops (WHATWG HTML, 13.2.6.4.13).
pub fn is_table_body_context(name: &QualName) -> bool
    ensures { result ≡ is_element_of table_body_context name.now }
{
    is_html_in(name, &TABLE_BODY_CONTEXT)
}

/// Where clearing the stack back to a table row context stops (WHATWG HTML, 13.2.6.4.14).
pub fn is_table_row_context(name: &QualName) -> bool
    ensures { result ≡ is_element_of table_row_context name.now }
{
    is_html_in(name, &TABLE_ROW_CONTEXT)
}

/// A part of a table: what would be put into it is fostered (WHATWG HTML, 13.2.6.1).
pub fn is_foster_target(name: &QualName) -> bool
    ensures { result ≡ is_element_of foster_targets name.now }
{
    is_html_in(name, &FOSTER_TARGETS)
}

/// Where text in a table is collected before it is judged (WHATWG HTML, 13.2.6.4.9).
pub fn collects_table_text(name: &QualName) -> bool
    ensures { result ≡ is_element_of table_text_places name.now }
{
    is_html_in(name, &TABLE_TEXT_PLACES)
}

/// A section of a table (WHATWG HTML, 13.2.6.4.13).
pub fn is_table_section(name: &QualName) -> bool
    ensures { result ≡ is_element_of table_sections name.now }
{
    is_html_one_of(name, &["tbody", "tfoot", "thead"])
}

/// A cell of a table (WHATWG HTML, 13.2.6.4.15).
pub fn is_table_cell(name: &QualName) -> bool
    ensures { result ≡ is_element_of table_cells name.now }
{
    is_html_one_of(name, &["td", "th"])
}

/// An element that the serializer writes without contents and end tag (WHATWG HTML, 13.3).
pub fn is_void(name: &QualName) -> bool
    ensures { result ≡ is_element_of void_elements name.now }
{
    is_html_in(name, &VOID)
}

/// An element whose text the serializer writes as it is (WHATWG HTML, 13.3); with scripting `noscript` is one too.
pub fn has_raw_text(name: &QualName) -> bool
    ensures { result ≡ is_element_of raw_text_elements name.now }
{
    is_html_one_of(
        name,
        &[
            "style",
            "script",
            "xmp",
            "iframe",
            "noembed",
            "noframes",
            "plaintext",
        ],
    )
}
