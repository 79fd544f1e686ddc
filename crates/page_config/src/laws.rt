//! Laws of what is answered of pages.
ghost use Rattle.std.specs.Prelude.{◌≡◌, ℕ, ◌<◌, ◌≤◌, List, true, false};
ghost use Rattle.block_renderer.specs.Seen.{marking};
ghost use Rattle.html_render_tree.specs.PageLaws.{AreWithin, IsTextWithin};
ghost use Rattle.page_config.specs.PageAnswers.{HasAnswer, HasText, PageAnswer, lines, too_narrow};
ghost use Rattle.page_config.specs.PlainPages.{HasPlainAnswer, HasPlainText};
ghost use Rattle.page_config.specs.Settings.{PageSetting};
ghost use Rattle.lex_base.specs.References.{References};
ghost use Rattle.text_lines.specs.Tagged.{Item};
ghost use Rattle.text_decorators.specs.Marks.{IsSteady, Mark};

use html_render_tree::{
    pages_are_numbered, pages_keep_the_width, pages_with_room_are_never_too_narrow,
};
use page_reading::{a_page_has_a_tree_of_bytes, a_page_has_one_tree_of_bytes};
use text_decorators::{PlainDecorator, TextDecorator};

/// A page has one answer: of equal bytes, read and rendered by equal configurations at equal widths, however they were
/// cut, the lines are equal, and lines, a width that is too narrow, and nothing to render exclude one another.
pub fn a_page_has_one_answer<D: TextDecorator>()
    ensures { (tag : D.Held → Mark → D.Annotation.Seen) (c : PageSetting D.Held) (width : ℕ) (bytes : List ℕ)
        (one other : PageAnswer D.Annotation.Seen) → HasAnswer (marking D.view tag) D.Annotation.seen D.view.closes c
        width bytes one → HasAnswer (marking D.view tag) D.Annotation.seen D.view.closes c width bytes other → one
        ≡ other }
{
    a_page_has_one_tree_of_bytes();
}

/// And it has one: lines, that the width is too narrow, or that there is nothing to render.
pub fn a_page_has_an_answer<D: TextDecorator>()
    ensures { (tag : D.Held → Mark → D.Annotation.Seen) (c : PageSetting D.Held) (width : ℕ) (bytes : List ℕ)
        → (answer : PageAnswer D.Annotation.Seen) × HasAnswer (marking D.view tag) D.Annotation.seen D.view.closes c
        width bytes answer }
{
    a_page_has_a_tree_of_bytes();
}

/// And one text.
pub fn a_page_has_one_text<D: TextDecorator>()
    ensures { (tag : D.Held → Mark → D.Annotation.Seen) (c : PageSetting D.Held) (width : ℕ) (bytes one other : List ℕ)
        → HasText (marking D.view tag) D.Annotation.seen D.view.closes c width bytes one → HasText (marking D.view tag)
        D.Annotation.seen D.view.closes c width bytes other → one ≡ other }
{
    a_page_has_one_tree_of_bytes();
}

/// A page has one answer as plain text, by whatever configuration of plain text: of two, the rules of style may be
/// written otherwise, and declare the same.
pub fn a_page_has_one_plain_answer()
    ensures { (table : References) (width : ℕ) (bytes : List ℕ) (one other : PageAnswer (Unit {0}))
        → HasPlainAnswer table width bytes one → HasPlainAnswer table width bytes other → one ≡ other }
{
    a_page_has_one_answer::<PlainDecorator>();
}

/// And one plain text.
pub fn a_page_has_one_plain_text()
    ensures { (table : References) (width : ℕ) (bytes one other : List ℕ)
        → HasPlainText table width bytes one → HasPlainText table width bytes other → one ≡ other }
{
    a_page_has_one_text::<PlainDecorator>();
}

/// No line of a page passes its width, of two columns or more, where prefixes are steady, no part may pass it and links
/// are wrapped: targets after the page among them.
pub fn a_page_keeps_its_width<D: TextDecorator>()
    ensures { (tag : D.Held → Mark → D.Annotation.Seen) (c : PageSetting D.Held) (width : ℕ) (bytes : List ℕ)
        (shown : List (List (Item (List D.Annotation.Seen)))) → IsSteady D.view.text
        → c.rendering.options.allow_width_overflow ≡ false → c.rendering.options.wrap_links ≡ true → 2 ≤ width
        → HasAnswer (marking D.view tag) D.Annotation.seen D.view.closes c width bytes (lines shown) → AreWithin width
        shown }
{
    pages_are_numbered();
    pages_keep_the_width::<D>();
}

/// So does no line of a page's text.
pub fn a_text_keeps_its_width<D: TextDecorator>()
    ensures { (tag : D.Held → Mark → D.Annotation.Seen) (c : PageSetting D.Held) (width : ℕ) (bytes text : List ℕ)
        → IsSteady D.view.text → c.rendering.options.allow_width_overflow ≡ false → c.rendering.options.wrap_links
        ≡ true → 2 ≤ width → HasText (marking D.view tag) D.Annotation.seen D.view.closes c width bytes text
        → IsTextWithin width text }
{
    pages_are_numbered();
    pages_keep_the_width::<D>();
}

/// And of its plain text.
pub fn a_plain_text_keeps_its_width()
    ensures { (table : References) (width : ℕ) (bytes text : List ℕ) → 2 ≤ width
        → HasPlainText table width bytes text → IsTextWithin width text }
{
    a_text_keeps_its_width::<PlainDecorator>();
}

/// Where parts may pass the width, no width but 0 is too narrow for a page.
pub fn a_page_with_room_is_never_too_narrow<D: TextDecorator>()
    ensures { (tag : D.Held → Mark → D.Annotation.Seen) (c : PageSetting D.Held) (width : ℕ) (bytes : List ℕ)
        → c.rendering.options.allow_width_overflow ≡ true → 0 < width → HasAnswer (marking D.view tag)
        D.Annotation.seen D.view.closes c width bytes too_narrow → ⊥ }
{
    pages_with_room_are_never_too_narrow::<D>();
}
