//! Whether rules hide an element.
ghost use Rattle.std.specs.Prelude.{◌≡◌, ℕ, List};
ghost use Rattle.dom_styles.specs.Hiding.{is_hidden};
ghost use Rattle.dom_styles.specs.Seen.{IsComputed};
ghost use Rattle.dom_styles.specs.declared.rules.StyleRule.{StyleRule};

use crate::computed::ComputedStyle;

/// Whether an element that rules give these styles is hidden, by display none.
pub fn is_hidden(style: &ComputedStyle<'_>) -> bool
    ensures { (name : List ℕ) (rules : List StyleRule) → IsComputed name rules style.now
        → result ≡ is_hidden name rules }
{
    style.itself.display.val().is_some()
}
