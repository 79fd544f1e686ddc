//! Nodes that are still to be emitted.
ghost use Rattle.std.specs.Prelude.{◌≡◌, ◌++◌, OnOk};
ghost use Rattle.dom_writing.specs.Turns.{visits};
ghost use Rattle.html_render_dom.specs.ChildNodes.{children_left};

use crate::turn::Turn;
use html_render_dom::ChildNodes;
use std::alloc::AllocError;

// one turn for all of them, and none where there is none: so each turn emits something
pub(crate) fn push_visits<'a>(
    turns: &mut Vec<Turn<'a>>,
    nodes: ChildNodes<'a>,
) -> Result<(), AllocError>
    ensures { OnOk result (turns.new.items ≡ turns.old.items ++ visits (children_left nodes.entry)) }
{
    let mut rest = nodes;
    let Some(first) = rest.next() else {
        return Ok(());
    };
    turns.push(Turn::Row(first, rest))?;
    Ok(())
}
