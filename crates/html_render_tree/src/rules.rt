//! Rules of style, joined.

ghost use Rattle.std.specs.Prelude.{◌≡◌, ◌++◌, IfOk};

use dom_styles::StyleRule;
use std::alloc::AllocError;

/// These rules, and then those. The error is allocation failure.
pub(crate) fn joined(
    first: Vec<StyleRule>,
    second: Vec<StyleRule>,
) -> Result<Vec<StyleRule>, AllocError>
    ensures { IfOk result (λ rules. rules.items ≡ first.items ++ second.items) }
{
    let mut rules = first;
    let mut more = second;
    rules.append(&mut more)?;
    Ok(rules)
}
