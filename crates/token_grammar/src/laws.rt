//! Laws of the reading of a page: each is the contract of a function that does nothing.
ghost use Rattle.std.specs.Prelude.{◌≡◌, ℕ, Bool, List};
ghost use Rattle.lex_base.specs.References.{References};
ghost use Rattle.token_grammar.specs.Kinds.{LexemeOf};
ghost use Rattle.token_grammar.specs.Lexemes.{lexeme};
ghost use Rattle.token_grammar.specs.Reading.{Reading};
ghost use Rattle.token_grammar.specs.declared.modes.Mode.{Mode as SeenMode};

use crate::sink::TokenSink;

/// A text has at most one reading, whatever the sink.
pub fn one_reading<S: TokenSink>()
    ensures { (table : References) (mode : SeenMode) (state : S.Abstract) (text : List ℕ) (final other : S.Abstract) →
        Reading table S.means mode state text final → Reading table S.means mode state text other → final ≡ other }
{}

/// Every text has a reading, whatever the sink.
pub fn some_reading<S: TokenSink>()
    ensures { (table : References) (mode : SeenMode) (state : S.Abstract) (text : List ℕ) →
        (final : S.Abstract) × Reading table S.means mode state text final }
{}

/// In text that isn't ordinary only characters, errors, end tags and nothing are read, and only after a tag ordinary
/// text follows it.
pub fn text_of_a_kind()
    ensures { (table : References) (foreign : Bool) (mode : SeenMode) (text : List ℕ) →
        LexemeOf mode.text (lexeme table foreign mode text) }
{}
