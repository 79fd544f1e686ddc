//! Laws of the lines of pages: each is the contract of a function that does nothing.
ghost use Rattle.std.specs.Prelude.{ℕ, All, List};
ghost use Rattle.block_renderer.specs.Seen.{marking};
ghost use Rattle.text_decorators.specs.Marks.{IsPrefix, Mark};
ghost use Rattle.text_decorators.specs.Texts.{footnote_lines, plain_text, rich_text, trivial_text};
ghost use Rattle.printed_block_laws.specs.Printed.{ArePrinted, IsPrinted};
ghost use Rattle.printed_page_laws.specs.PrintedPages.{PagesPrintNoControls};

use printed_block_laws::blocks_print_no_controls;
use text_decorators::TextDecorator;
use text_footnotes::printable_targets_lose_nothing;

/// No line of a page holds a control of C0 or C1, where targets are made printable and neither a decorator's prefixes
/// nor its lines after a page bring one.
pub fn pages_print_no_controls<D: TextDecorator>()
    ensures { (tag : D.Held → Mark → D.Annotation.Seen) → PagesPrintNoControls (marking D.view tag) D.Annotation.seen
        D.view.closes }
{
    blocks_print_no_controls::<Vec<D::Annotation>>();
    printable_targets_lose_nothing();
}

/// The decorators of plain text, of rich text and of trivial text bring none: their prefixes, and the lines that they
/// write of targets.
pub fn decorators_print_no_controls<T>()
    ensures plain { (kind : Mark) → IsPrefix kind → All IsPrinted (plain_text kind) }
    ensures rich { (kind : Mark) → IsPrefix kind → All IsPrinted (rich_text kind) }
    ensures trivial { (kind : Mark) → IsPrefix kind → All IsPrinted (trivial_text kind) }
    ensures notes { (annotation : T) (targets : List (List ℕ)) → All (All IsPrinted) targets
        → All ArePrinted (footnote_lines annotation targets) }
{}
