//! Trees that are built by tree construction's calls, compared with what WHATWG HTML says of each.
ghost use Rattle.html_tree_state.specs.Building.{seen};
ghost use Rattle.html_tree_state.specs.Sound.{Sound};

use crate::checks::passes;
use crate::fact::{Fact, is_so};
use crate::lists::is_listed;
use crate::rows::ROWS;
use crate::step::{Step, begun, take_all};
use html_lexemes::ParseFault;
use html_render_dom::RcDom;
use html_tree_state::Construction;
use std::alloc::Global;
use tree_forest::TreeSink;
use tree_formatting::FormattingList;

// whether all of these hold after steps
fn is_built(
    alloc: Global,
    first: &[Step],
    steps: &[Step],
    facts: &[Fact],
) -> Result<bool, ParseFault> {
    let mut tree = begun(alloc, RcDom::new(alloc)?);
    let answer = are_so(&mut tree, alloc, first, steps, facts);
    let Construction { held: _, sink: _ } = tree;
    answer
}

fn are_so(
    tree: &mut Construction<RcDom>,
    alloc: Global,
    first: &[Step],
    steps: &[Step],
    facts: &[Fact],
) -> Result<bool, ParseFault>
    requires { Sound (seen ⟦<RcDom as TreeSink>⟧.view tree.old.held tree.old.sink) }
{
    take_all(tree, alloc, first)?;
    take_all(tree, alloc, steps)?;
    for fact in facts {
        if !is_so(tree, alloc, fact)? {
            return Ok(false);
        }
    }
    Ok(true)
}

#[test]
fn trees_are_built_step_by_step(rt: HostRuntime) {
    for (row, (first, steps, facts)) in ROWS.iter().enumerate() {
        passes(&rt, is_built(rt.alloc(), first, steps, facts), row);
    }
}

fn is_changed(alloc: Global) -> Result<bool, ParseFault> {
    let mut dom = RcDom::new(alloc)?;
    let mut list = FormattingList::new(alloc);
    is_listed(alloc, &mut dom, &mut list)
}

#[test]
fn a_list_is_changed(rt: HostRuntime) {
    passes(&rt, is_changed(rt.alloc()), 0);
}
