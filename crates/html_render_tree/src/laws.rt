//! Laws of the lines of pages: each is the contract of a function that does nothing.
ghost use Rattle.std.specs.Prelude.{List};
ghost use Rattle.block_renderer.specs.Seen.{marking};
ghost use Rattle.tree_forest.specs.Forest.{Forest};
ghost use Rattle.html_render_tree.specs.PageLaws.{PagesHaveRoom, PagesKeepWidth, TextsKeepWidth};
ghost use Rattle.render_conversion.specs.Conversion.{document_values};
ghost use Rattle.render_conversion.specs.declared.options.ConversionOptions.{ConversionOptions};
ghost use Rattle.dom_styles.specs.declared.rules.StyleRule.{StyleRule as SeenRule};
ghost use Rattle.text_decorators.specs.Marks.{Mark};
ghost use Rattle.layout_laws.specs.WalkLaws.{AreNumbered};

use block_laws::{renderers_keep_the_width, renderers_with_room_never_refuse};
use layout_laws::{values_keep_the_width, values_with_room_are_laid};
use text_block_renderer::{parts_keep_the_width, parts_with_room_never_refuse};
use text_decorators::TextDecorator;

/// No line of a page passes its width, of two columns or more, where prefixes are steady, no part may pass it and links
/// are wrapped: lines after its last value among them.
pub fn pages_keep_the_width<D: TextDecorator>()
    ensures { (tag : D.Held → Mark → D.Annotation.Seen) → PagesKeepWidth (marking D.view tag) D.Annotation.seen
        D.view.closes }
{
    renderers_keep_the_width::<D>();
    parts_keep_the_width::<D>();
    values_keep_the_width::<D>();
}

/// So does no line of the text of a page.
pub fn texts_keep_the_width<D: TextDecorator>()
    ensures { (tag : D.Held → Mark → D.Annotation.Seen) → TextsKeepWidth (marking D.view tag) D.Annotation.seen
        D.view.closes }
{
    pages_keep_the_width::<D>();
}

/// Where parts may pass the width, no width is too narrow for a page.
pub fn pages_with_room_are_never_too_narrow<D: TextDecorator>()
    ensures { (tag : D.Held → Mark → D.Annotation.Seen) → PagesHaveRoom (marking D.view tag) D.Annotation.seen
        D.view.closes }
{
    renderers_with_room_never_refuse::<D>();
    parts_with_room_never_refuse::<D>();
    values_with_room_are_laid::<D>();
}

/// The lists of a page begin with numbers of 64 bits, whatever stands in it, whatever is asked of its
/// conversion and whatever the rules of style say.
pub fn pages_are_numbered()
    ensures { (o : ConversionOptions) (rules : List SeenRule) (f : Forest) → AreNumbered (document_values o rules f) }
{}
