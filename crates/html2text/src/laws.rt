//! Laws of what the program writes.
ghost use Rattle.std.specs.Prelude.{◌≡◌, ◌≤◌, ℕ, List};
ghost use Rattle.command_line.specs.CommandWords.{Asked};
ghost use Rattle.html2text.specs.Written.{HasAskedText, IsOtherPage, IsTooNarrowPage};
ghost use Rattle.html_render_tree.specs.PageLaws.{IsTextWithin};
ghost use Rattle.lex_base.specs.References.{References};

use page_config::{a_page_has_one_answer, a_page_has_one_text, a_text_keeps_its_width};
use text_decorators::{PlainDecorator, RichDecorator};

/// Of the same bytes, by the same words, the program writes one text; and a text, a width that is too narrow, and
/// nothing to render exclude one another.
pub fn a_page_is_written_in_one_way()
    ensures text { (asked : Asked) (names : References) (bytes one other : List ℕ)
        → HasAskedText asked names bytes one → HasAskedText asked names bytes other → one ≡ other }
    ensures narrow { (asked : Asked) (names : References) (bytes text : List ℕ)
        → HasAskedText asked names bytes text → IsTooNarrowPage asked names bytes → ⊥ }
    ensures other { (asked : Asked) (names : References) (bytes text : List ℕ)
        → HasAskedText asked names bytes text → IsOtherPage asked names bytes → ⊥ }
    ensures neither { (asked : Asked) (names : References) (bytes : List ℕ)
        → IsTooNarrowPage asked names bytes → IsOtherPage asked names bytes → ⊥ }
{
    a_page_has_one_answer::<PlainDecorator>();
    a_page_has_one_text::<PlainDecorator>();
    a_page_has_one_answer::<RichDecorator>();
    a_page_has_one_text::<RichDecorator>();
}

/// No line that the program writes of a page passes the width that is asked for, of two columns or more.
pub fn what_is_written_keeps_its_width()
    ensures { (asked : Asked) (names : References) (bytes text : List ℕ) → 2 ≤ asked.width
        → HasAskedText asked names bytes text → IsTextWithin asked.width text }
{
    a_text_keeps_its_width::<PlainDecorator>();
    a_text_keeps_its_width::<RichDecorator>();
}
