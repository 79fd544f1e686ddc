//! A law of the command line: the contract of a function that does nothing.

ghost use Rattle.std.specs.Prelude.{◌≡◌, ℕ, List};
ghost use Rattle.command_line.specs.CommandWords.{Asked, Asks};

/// Words ask for one thing at most.
pub fn words_ask_one_thing()
    ensures { (words : List (List ℕ)) (one other : Asked) → Asks words one → Asks words other → one ≡ other }
{}
