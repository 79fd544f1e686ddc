use crate::trees::{passes, tree_of};
use html_render_tree::RenderError;
use render_conversion::{ConversionOptions, dom_to_render_tree};
use render_sizes::{Extent, Prefixes, asked_extents, measured};
use std::alloc::{AllocError, Global};

// prefixes of so many columns: one more than the level before a heading, two before a quote and an item, three before
// an item with a number
struct Steady;

impl Prefixes for Steady {
    ghost use Rattle.std.specs.Prelude.{◌+◌};

    ghost columns = { λ _. record {
      heading = λ level. level + 1;
      quote = 2;
      bullet = 2;
      numbers = λ first items. 3;
    } };

    fn heading(&self, level: u8) -> Result<usize, AllocError> {
        Ok(usize::from(level) + 1)
    }

    fn quote(&self) -> Result<usize, AllocError> {
        Ok(2)
    }

    fn bullet(&self) -> Result<usize, AllocError> {
        Ok(2)
    }

    fn numbers(&self, _first: i64, _items: usize) -> Result<usize, AllocError> {
        Ok(3)
    }
}

// A page; of each node in order its columns on one line and at least, where text may be three columns narrow; and the
// same where a layout asks: of a list and a heading with what stands in them, and of what stands in a table.
static SIZES: [(&str, &str, &str); 4] = [
    (
        "<p>ab c<a href=u>de</a><br>",
        "12 3\n12 3\n12 3\n12 3\n4 3\n7 2\n2 2\n1 1\n",
        "0 0\n0 0\n0 0\n0 0\n0 0\n0 0\n0 0\n0 0\n",
    ),
    (
        "<ul><li>abcd</ul>",
        "6 5\n6 5\n6 5\n6 5\n4 3\n4 3\n",
        "0 0\n0 0\n0 0\n6 5\n4 3\n4 3\n",
    ),
    (
        "<h2> a  b </h2><img src=s alt=abc>",
        "12 6\n12 6\n12 6\n7 6\n4 3\n5 3\n",
        "0 0\n0 0\n0 0\n7 6\n4 3\n0 0\n",
    ),
    (
        "<table><td>a</table>",
        "1 1\n1 1\n1 1\n1 1\n1 1\n1 1\n1 1\n1 1\n",
        "0 0\n0 0\n0 0\n0 0\n1 1\n1 1\n1 1\n1 1\n",
    ),
];

fn are_lines(alloc: Global, sizes: &[Extent], wanted: &str) -> Result<bool, AllocError> {
    let mut lines = String::new(alloc);
    for size in sizes {
        write!(lines, "{} {}\n", size.size, size.least)?;
    }
    Ok(lines.as_str() == wanted)
}

fn are_sizes(alloc: Global, page: &str, all: &str, asked: &str) -> Result<bool, RenderError> {
    let Ok(dom) = tree_of(alloc, page) else {
        return Ok(false);
    };
    let tree = dom_to_render_tree(alloc, &dom, ConversionOptions::default(), &[])?;
    let sizes = measured(alloc, &Steady, 3, &tree)?;
    let are_all = are_lines(alloc, sizes.as_slice(), all)?;
    let sizes = asked_extents(alloc, &Steady, 3, &tree)?;
    Ok(are_all && are_lines(alloc, sizes.as_slice(), asked)?)
}

#[test]
fn values_have_sizes(rt: HostRuntime) {
    for (row, (page, all, asked)) in SIZES.iter().enumerate() {
        passes(&rt, are_sizes(rt.alloc(), page, all, asked), row);
    }
}
