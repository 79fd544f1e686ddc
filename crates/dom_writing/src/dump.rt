//! A tree as lines.
ghost use Rattle.std.specs.Prelude.{◌≡◌, chars, string_bytes, IfOk};
ghost use Rattle.dom_writing.specs.Dumps.{dump_of};
ghost use Rattle.tree_forest.specs.Forest.{Forest};
ghost use Rattle.html_render_dom.specs.Numbers.{number_of};

use crate::coming::{Coming, Placed, row_of, write_first};
use crate::laws::a_dump_goes_one_step_on;
use crate::lines::push_line;
use html_lexemes::Text;
use html_render_dom::{Handle, RcDom};
use std::alloc::{AllocError, Global};

/// Trees that can be written as lines: one for each node in document order, after one space for each level below the
/// node that is written. A line is `Document`, `Doctype:` and the name, `Text:` and the text, `Comment:` and the
/// comment, `PI:` and the target, or the element's local name between `<` and `>`. In texts and comments a line end is
/// written `\n`, and a backslash is doubled. What a template's contents hold isn't written.
pub trait DomString {
    ghost nodes: { Self → Forest };

    /// The lines of the whole tree. The error is allocation failure alone.
    fn as_dom_string(&self, alloc: Global) -> Result<String, AllocError>
        ensures { IfOk result (λ s. chars (string_bytes s) ≡ dump_of 0 (nodes self.now)) };

    /// The lines of a node and what is below it. A handle that isn't of the tree stands for a document without
    /// children. The error is allocation failure alone.
    fn node_as_dom_string(&self, alloc: Global, target: Handle) -> Result<String, AllocError>
        ensures { IfOk result (λ s. chars (string_bytes s) ≡ dump_of (number_of target) (nodes self.now)) };
}

impl DomString for RcDom {
    ghost nodes = { λ dom. dom.forest };

    fn as_dom_string(&self, alloc: Global) -> Result<String, AllocError> {
        self.node_as_dom_string(alloc, self.document())
    }

    fn node_as_dom_string(&self, alloc: Global, target: Handle) -> Result<String, AllocError> {
        let lines = lines_from(alloc, self, target)?;
        lines.into_string()
    }
}

// the lines of a node and what is below it
fn lines_from<'a>(alloc: Global, dom: &'a RcDom, target: Handle) -> Result<Text, AllocError>
    ensures { IfOk result (λ lines. lines ≡ dump_of (number_of target) dom.now.forest) }
{
    dom.document();
    a_dump_goes_one_step_on();
    let mut lines = Text::from_str(alloc, "")?;
    let first = Placed {
        node: target,
        level: 0,
    };
    push_line(&mut lines, dom, first)?;
    let mut coming: Vec<Coming<'a>> = Vec::new(alloc);
    let mut next = row_of(dom.children(target), 1);
    'nodes: while let Some(siblings) = next {
        next = write_first(&mut lines, &mut coming, dom, siblings)?;
    }
    Ok(lines)
}
