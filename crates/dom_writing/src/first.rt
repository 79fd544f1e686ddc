//! Where a walk begins.
ghost use Rattle.std.specs.Prelude.{◌≡◌, IfOk};
ghost use Rattle.dom_writing.specs.Turns.{AreReady, pending};
ghost use Rattle.tree_forest.specs.Orders.{IsForest};
ghost use Rattle.html_render_dom.specs.Numbers.{number_of};
ghost use Rattle.tree_serializer.specs.Walks.{calls_of};

use crate::inner::{inner, stands_for_document};
use crate::turn::Turn;
use crate::visits::push_visits;
use html_render_dom::{Handle, RcDom};
use std::alloc::{AllocError, Global};
use tree_serializer::{TraversalScope, a_walk_goes_one_step_on};

// what is to be emitted of a node
pub(crate) fn first_turns<'a>(
    alloc: Global,
    dom: &'a RcDom,
    node: Handle,
    scope: &TraversalScope,
) -> Result<Vec<Turn<'a>>, AllocError>
    requires { IsForest dom.now.forest }
    ensures calls { IfOk result (λ turns. pending dom.now.forest turns.items
        ≡ calls_of scope.now (number_of node) dom.now.forest) }
    ensures ready { IfOk result (λ turns. AreReady dom.now.forest turns.items) }
{
    a_walk_goes_one_step_on();
    let mut turns: Vec<Turn<'a>> = Vec::new(alloc);
    match scope {
        TraversalScope::IncludeNode => {
            // a document is emitted by what stands in it
            if stands_for_document(dom, node) {
                push_visits(&mut turns, inner(dom, node))?;
                return Ok(turns);
            }
            turns.push(Turn::Visit(node))?;
            Ok(turns)
        }
        TraversalScope::ChildrenOnly(_) => {
            push_visits(&mut turns, inner(dom, node))?;
            Ok(turns)
        }
    }
}
