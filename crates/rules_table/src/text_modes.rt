//! The modes of text.
ghost use Rattle.std.specs.Prelude.{◌≡◌};
ghost use Rattle.rules_table.specs.Actions.{but_text, out_of_text};

use tree_predicates::InsertionMode;

/// A mode that is gone to: "text" is none, since what asks for an element's text alone leads there.
pub fn but_text(mode: InsertionMode) -> InsertionMode
    ensures { result ≡ but_text mode }
{
    match mode {
        InsertionMode::Text => InsertionMode::InBody,
        _ => mode,
    }
}

/// A mode that is gone back to: none of text.
pub fn out_of_text(mode: InsertionMode) -> InsertionMode
    ensures { result ≡ out_of_text mode }
{
    match mode {
        InsertionMode::Text | InsertionMode::InTableText => InsertionMode::InBody,
        _ => mode,
    }
}
