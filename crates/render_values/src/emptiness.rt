//! Values that show nothing by themselves.
ghost use Rattle.std.specs.Prelude.{◌≡◌, ◌≤◌, chars, drop, length};
ghost use Rattle.std.specs.Char.{is_whitespace};
ghost use Rattle.std.specs.List.{list_all};
ghost use Rattle.render_values.specs.Arena.{IsFlat, values_of};
ghost use Rattle.render_values.specs.Emptiness.{all_empty, is_empty_info, is_empty_value, is_nothing};

use crate::info::{Head, RenderInfo};
use crate::node::RenderNode;

/// Whether a text is all white space (Unicode's `White_Space`), or empty.
pub fn is_white_space(text: &str) -> bool
    ensures { result ≡ list_all is_whitespace (chars text.now) }
{
    text.chars().all(|c| c.is_whitespace())
}

// whether a kind shows nothing, where nothing stands in it or something
fn is_empty_info(info: &RenderInfo, alone: bool) -> bool
    ensures { result ≡ is_empty_info info.now alone }
{
    match info {
        RenderInfo::Text(text) => is_white_space(text.as_str()),
        RenderInfo::Image { title, .. } => is_white_space(title.as_str()),
        RenderInfo::Break => true,
        RenderInfo::Rule => true,
        RenderInfo::Table => false,
        _ => alone,
    }
}

fn is_nothing(info: &RenderInfo) -> bool
    ensures { result ≡ is_nothing info.now }
{
    match info {
        RenderInfo::Nothing => true,
        _ => false,
    }
}

// whether a value is shallow-empty, where nothing stands in it or something
pub(crate) fn is_shallow_empty(head: &Head, alone: bool) -> bool
    ensures { result ≡ is_empty_value head.now alone }
{
    is_nothing(&head.info) || (head.fragment.is_none() && is_empty_info(&head.info, alone))
}

// the nodes after so many
pub(crate) fn nodes_after(nodes: &[RenderNode], count: usize) -> &[RenderNode]
    requires { count ≤ length nodes.now }
    ensures { result.now ≡ drop count nodes.now }
{
    &nodes[count..]
}

/// Whether all of some values are shallow-empty: texts or titles of white space, breaks, rules, fragments alone, and what
/// holds no value. A table never is, nor is a value in which a fragment starts.
pub fn all_shallow_empty(nodes: &[RenderNode]) -> bool
    requires { IsFlat nodes.now }
    ensures { result ≡ all_empty (values_of nodes.now) }
{
    let mut rest = nodes;
    while let Some((first, others)) = rest.split_first() {
        if !is_shallow_empty(&first.head, first.below == 0) {
            return false;
        }
        rest = nodes_after(others, first.below);
    }
    true
}
