//! Names in tree construction: the sets that the standard names, counts of open elements, and groups of tags.
//!
//! # Sets of names
//!
//! Tests of a name against a set that the standard names (WHATWG HTML, 13.2.4, 13.2.6 and 13.3), of an element by its
//! namespace and local name, and of a tag by its name alone.
//!
//! ## What is proved
//!
//! - each test of an element or of a tag's name: true exactly for the names of its set, a list of words in
//!   specs/ElementSets.antt and TagSets.antt, an element's by its namespace (`is_element_of`, `is_one_of`)
//! - `is_html`, `is_html_one_of`: the HTML element of a word; of one of some words
//! - `Scope::ends_at`, `ElementSet::contains`, `ElementSet::lets_close`: the barriers of a scope; the elements of a
//!   set; whether an end tag is implied and its element none of a set
//! - `OpenCounts::new`, `add`, `remove`: counts of no elements; of one more, or of one less, wherever it stands
//!   among the others
//! - `OpenCounts::has_none`: where it says so, no element of the set is among those that were counted
//! - `OpenCounts::has_none_named`, `has_no_foreign`: where it says so, none of this name is; none of another
//!   namespace than HTML whose name, in lower case, is this one
//!
//! Each set's size, two members and two strangers are computed, and counts of some small lists.
//!
//! Both answers of `has_none` are exact for sets all of whose words are counted names: it says none only where none
//! is open, and that some may be open only where one is. Of a name that shares its count with others (those that no
//! test of scope asks about share 128) it promises the first alone, and so do the other two. `rt plant` could judge
//! no body of it as it stands; wrong bodies show both sides.
//!
//! # Groups of tags
//!
//! The tags that every insertion mode treats alike, as one enum, which is made once for each tag
//! (WHATWG HTML, 13.2.6.4).
//!
//! ## What is proved
//!
//! `TagGroup::of` is the group of a tag's name (`tag_group`): 52 groups of names that every insertion mode treats
//! alike, and `Other`. It takes no memory, and compares a name with twelve others at most.
//! `formatting_groups_are_formatting` is a law: names of the three groups of formatting are those of formatting
//! elements. The definition is computed on some 20 names.
#![tactic(auto)]

mod counts;
mod element_sets;
mod group;
mod group_rows;
mod names;
mod rows;
mod sets;
mod tables;
mod tag_sets;
mod wanted;

pub use counts::OpenCounts;
pub use element_sets::{
    collects_table_text, has_implied_end_tag, has_raw_text, is_address_div_or_p,
    is_button_scope_barrier, is_foster_target, is_heading, is_integration_point,
    is_list_item_scope_barrier, is_math_ml_text_integration_point, is_scope_barrier, is_special,
    is_svg_html_integration_point, is_table_body_context, is_table_cell, is_table_context,
    is_table_row_context, is_table_scope_barrier, is_table_section, is_void,
};
pub use group::{TagGroup, formatting_groups_are_formatting};
pub use sets::{is_html, is_html_one_of};
pub use tag_sets::{
    has_rawtext_context, has_rcdata_context, is_break_out_tag, is_formatting_tag,
    is_math_ml_glyph_tag,
};
pub use wanted::{ElementSet, Scope};
