//! Laws of what tree construction means to a tokenizer.
ghost use Rattle.std.specs.Prelude.{ℕ};
ghost use Rattle.token_grammar.specs.Kinds.{IsHearing};
ghost use Rattle.token_grammar.specs.Reading.{IsLawful};
ghost use Rattle.rules_table.specs.Settling.{meaning};
ghost use Rattle.rules_table.specs.Welcome.{IsReady, IsWelcome};

/// Texts that follow each other are as one, tags alone are answered, what holds between two items is kept, and an error
/// changes at most how a line feed right after it is taken.
pub fn tree_construction_is_lawful<H>()
    ensures { (handle : ℕ → H) → IsLawful (meaning handle) IsReady }
{}

/// What is welcome stays so, and after a tag what is emitted in the text that was asked for is welcome.
pub fn tree_construction_hears<H>()
    ensures { (handle : ℕ → H) → IsHearing (meaning handle) IsWelcome }
{}
