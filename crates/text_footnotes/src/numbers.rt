//! The numbers of targets that share footnotes.
ghost use Rattle.std.specs.Prelude.{◌≡◌, ℕ, List, ◌++◌, ◌∷◌, [], IfOk, OnErr, OnOk, chars, string_bytes};
ghost use Rattle.std.specs.HashMap.{IsUnchanged};
ghost use Rattle.text_pieces.specs.Sources.{names};
ghost use Rattle.text_footnotes.specs.Seen.{AreNumbered};
ghost use Rattle.text_footnotes.specs.Targets.{distinct};

use std::alloc::AllocError;
use std::collections::HashMap;

/// One target more, which has the next number where it is new.
pub(crate) fn note(numbers: &mut HashMap<String, usize>, text: &String) -> Result<(), AllocError>
    ensures noted { OnOk result ((targets : List (List ℕ)) → AreNumbered targets numbers.old
        → AreNumbered (targets ++ chars (string_bytes text.now) ∷ []) numbers.new) }
    ensures err { OnErr result (IsUnchanged numbers.old numbers.new) }
{
    if numbers.contains_key(text) {
        return Ok(());
    }
    let number = numbers.len() + 1;
    let key = String::from_str(*text.allocator(), text.as_str())?;
    numbers.insert(key, number)?;
    Ok(())
}

/// Each target once, where it stands first.
pub(crate) fn each_once(
    targets: Vec<String>,
    mut numbers: HashMap<String, usize>,
) -> Result<Vec<String>, AllocError>
    requires { AreNumbered (names targets.items) numbers }
    ensures { IfOk result (λ noted. names noted.items ≡ distinct (names targets.items)) }
{
    let mut noted = Vec::with_capacity(*targets.allocator(), numbers.len())?;
    'targets: for target in targets {
        if numbers.remove(&target).is_some() {
            noted.push(target)?;
        }
    }
    Ok(noted)
}
