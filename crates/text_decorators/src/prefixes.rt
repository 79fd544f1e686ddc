//! The prefixes that plain and rich text share.
ghost use Rattle.std.specs.Prelude.{◌≡◌, ◌++◌, codes, replicate, chars, string_bytes, IfOk};
ghost use Rattle.std.specs.Fmt.{signed_decimal};

use crate::default_marks::literal;
use std::alloc::{AllocError, Global};

/// As many `#` as the level, and a space.
pub(crate) fn header_prefix(alloc: Global, level: usize) -> Result<String, AllocError>
    ensures { IfOk result (λ s. chars (string_bytes s) ≡ replicate level 0x23 ++ codes " ") }
{
    let mut prefix = "#".repeat(alloc, level)?;
    prefix.push(' ')?;
    Ok(prefix)
}

/// The prefix of a quote's lines.
pub(crate) fn quote_prefix(alloc: Global) -> Result<String, AllocError>
    ensures { IfOk result (λ s. chars (string_bytes s) ≡ codes "> ") }
{
    literal(alloc, "> ")
}

/// The prefix of an item without a number.
pub(crate) fn unordered_item_prefix(alloc: Global) -> Result<String, AllocError>
    ensures { IfOk result (λ s. chars (string_bytes s) ≡ codes "* ") }
{
    literal(alloc, "* ")
}

/// The number, a dot and a space.
pub(crate) fn ordered_item_prefix(alloc: Global, i: i64) -> Result<String, AllocError>
    ensures { IfOk result (λ s. chars (string_bytes s) ≡ signed_decimal i ++ codes ". ") }
{
    format!(in alloc; "{i}. ")
}
