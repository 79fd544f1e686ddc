//! Tests of a tag's name against a set, which `sets` re-exports.
ghost use Rattle.std.specs.Prelude.{◌≡◌};
ghost use Rattle.tree_names.specs.Sets.{is_one_of};
ghost use Rattle.tree_names.specs.TagSets.{break_outs, formatting, math_ml_glyphs, rawtext_contexts, rcdata_contexts};

use crate::sets::is_one_of;
use crate::tables::{FORMATTING, is_in};
use html_lexemes::LocalName;

/// An element with formatting (WHATWG HTML, 13.2.4.3).
pub fn is_formatting_tag(name: &LocalName) -> bool
    ensures { result ≡ is_one_of formatting name.now }
{
    is_in(name, &FORMATTING)
}

/// A start tag that breaks out of foreign content; `font` is one too, with `color`, `face` or `size` (WHATWG HTML,
/// 13.2.6.5).
pub fn is_break_out_tag(name: &LocalName) -> bool
    ensures { result ≡ is_one_of break_outs name.now }
{
    is_one_of(
        name,
        &[
            "b",
            "big",
            "blockquote",
            "body",
            "br",
            "center",
            "code",
            "dd",
            "div",
            "dl",
            "dt",
            "em",
            "embed",
            "h1",
            "h2",
            "h3",
            "h4",
            "h5",
            "h6",
            "head",
            "hr",
            "i",
            "img",
            "li",
            "listing",
            "menu",
            "meta",
            "nobr",
            "ol",
            "p",
            "pre",
            "ruby",
            "s",
            "small",
            "span",
            "strong",
            "strike",
            "sub",
            "sup",
            "table",
            "tt",
            "u",
            "ul",
            "var",
        ],
    )
}

/// A start tag that stays foreign in MathML text (WHATWG HTML, 13.2.6).
pub fn is_math_ml_glyph_tag(name: &LocalName) -> bool
    ensures { result ≡ is_one_of math_ml_glyphs name.now }
{
    is_one_of(name, &["mglyph", "malignmark"])
}

/// A context of a fragment whose text is RCDATA (WHATWG HTML, 13.4).
pub fn has_rcdata_context(name: &LocalName) -> bool
    ensures { result ≡ is_one_of rcdata_contexts name.now }
{
    is_one_of(name, &["title", "textarea"])
}

/// A context of a fragment whose text is raw; with scripting `noscript` is one too (WHATWG HTML, 13.4).
pub fn has_rawtext_context(name: &LocalName) -> bool
    ensures { result ≡ is_one_of rawtext_contexts name.now }
{
    is_one_of(name, &["style", "xmp", "iframe", "noembed", "noframes"])
}
