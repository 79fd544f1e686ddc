ghost use Rattle.std.specs.Prelude.{◌≡◌, ◌++◌, codes, chars, string_bytes, IfOk};
ghost use Rattle.std.specs.Fmt.{decimal};

use crate::link_counter::LinkCounter;
use crate::linked::two_links;
use std::alloc::{AllocError, Global};

/// Two links with the same label by a new counter: each ends with its own number.
pub fn counted_links(alloc: Global, url: &str, label: &str) -> Result<(String, String), AllocError>
    ensures first { IfOk result (λ r. chars (string_bytes r.0)
        ≡ codes "[" ++ chars label.now ++ (codes "][" ++ decimal 1 ++ codes "]")) }
    ensures second { IfOk result (λ r. chars (string_bytes r.1)
        ≡ codes "[" ++ chars label.now ++ (codes "][" ++ decimal 2 ++ codes "]")) }
{
    let mut counter = LinkCounter::new();
    two_links(alloc, &mut counter, url, label)
}
