//! A page's render tree.
ghost use Rattle.std.specs.Prelude.{◌≡◌, ◌≢◌, Err, IfOk};
ghost use Rattle.render_conversion.specs.Conversion.{document_values};
ghost use Rattle.render_conversion.specs.declared.error.RenderError.TheVariants.{Fail, TooNarrow};
ghost use Rattle.render_values.specs.Arena.{IsFlat, flat};
ghost use Rattle.render_values.specs.Values.{none};

use crate::error::RenderError;
use crate::options::ConversionOptions;
use crate::place::Place;
use crate::turns::{Turn, Turns};
use crate::walk::read_all;
use dom_styles::StyleRule;
use html_render_dom::RcDom;
use render_values::{RenderNode, RenderTree};
use std::alloc::{AllocError, Global};

/// The render tree of a page, by what is asked of its conversion, and by rules of style of which the last among equals
/// holds. The error is `Fail` exactly where
/// the page converts to nothing, else allocation failure.
pub fn dom_to_render_tree(
    alloc: Global,
    dom: &RcDom,
    options: ConversionOptions,
    rules: &[StyleRule],
) -> Result<RenderTree, RenderError>
    ensures tree { IfOk result (λ tree. tree ≡ document_values options rules.now dom.now.forest) }
    ensures some { IfOk result (λ tree. tree ≢ none) }
    ensures fail { result ≡ Err Fail → document_values options rules.now dom.now.forest ≡ none }
    ensures kinds { result ≢ Err TooNarrow }
{
    let nodes = nodes_of(alloc, dom, options, rules)?;
    if nodes.is_empty() {
        return Err(RenderError::Fail);
    }
    Ok(RenderTree::new(nodes))
}

// the values of a page, in their order
fn nodes_of<'a>(
    alloc: Global,
    dom: &'a RcDom,
    options: ConversionOptions,
    rules: &[StyleRule],
) -> Result<Vec<RenderNode>, AllocError>
    ensures values { IfOk result (λ nodes. nodes.items ≡ flat (document_values options rules.now dom.now.forest)) }
    ensures flat { IfOk result (λ nodes. IsFlat nodes.items) }
{
    let mut nodes = Vec::new(alloc);
    let mut turns: Turns<'a> = Turns::new(alloc);
    turns.push(Turn::Visit(dom.document(), Place::Flow))?;
    read_all(alloc, dom, options, rules, &mut nodes, &mut turns)?;
    Ok(nodes)
}
