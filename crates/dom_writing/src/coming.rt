//! Nodes whose lines are still to come.
ghost use Rattle.std.specs.Prelude.{◌≡◌, ◌+◌, IfOk, Some};
ghost use Rattle.dom_writing.specs.ToCome.{IsStep, all_of, row};
ghost use Rattle.html_render_dom.specs.ChildNodes.{children_left};

use crate::laws::a_dump_goes_one_step_on;
use crate::lines::push_line;
use html_lexemes::Text;
use html_render_dom::{ChildNodes, Handle, RcDom};
use std::alloc::AllocError;

/// A node in its place.
#[derive(Clone, Copy)]
pub(crate) struct Placed {
    /// The node.
    pub(crate) node: Handle,
    /// How far it stands below the first node that is written.
    pub(crate) level: usize,
}

/// Siblings whose lines are still to come, and those of what is below them.
#[derive(Drop)]
pub(crate) struct Coming<'a> {
    /// The first of them.
    pub(crate) node: Handle,
    /// Those after it.
    pub(crate) others: ChildNodes<'a>,
    /// How far they stand below the first node that is written.
    pub(crate) level: usize,
}

// Writes the first of some siblings, and gives what comes next: its children, the others, or the last of what waits.
// The others wait while there are children.
#[inline(always)]
pub(crate) fn write_first<'a>(
    lines: &mut Text,
    coming: &mut Vec<Coming<'a>>,
    dom: &'a RcDom,
    first: Coming<'a>,
) -> Result<Option<Coming<'a>>, AllocError>
    ensures { IfOk result (λ next. IsStep dom.now.forest lines.old (all_of (Some first.entry) coming.old.items)
        lines.new (all_of next coming.new.items)) }
{
    dom.document();
    a_dump_goes_one_step_on();
    let node = first.node;
    let level = first.level;
    let below = one_deeper(level)?;
    push_line(lines, dom, Placed { node, level })?;
    let mut others = first.others;
    let other = others.next();
    let mut children = dom.children(node);
    let Some(child) = children.next() else {
        let Some(other) = other else {
            return Ok(coming.pop());
        };
        return Ok(Some(Coming {
            node: other,
            others,
            level,
        }));
    };
    let below = Coming {
        node: child,
        others: children,
        level: below,
    };
    let Some(other) = other else {
        return Ok(Some(below));
    };
    coming.push(Coming {
        node: other,
        others,
        level,
    })?;
    Ok(Some(below))
}

// one entry for all of them, and none where there is none: so each writes a line
#[inline(always)]
pub(crate) fn row_of(nodes: ChildNodes<'_>, level: usize) -> Option<Coming<'_>>
    ensures { result ≡ row level (children_left nodes.entry) }
{
    let mut children = nodes;
    let Some(node) = children.next() else {
        return None;
    };
    Some(Coming {
        node,
        others: children,
        level,
    })
}

fn one_deeper(level: usize) -> Result<usize, AllocError>
    ensures { IfOk result (λ below. below ≡ level + 1) }
{
    level.checked_add(1).ok_or(AllocError)
}
