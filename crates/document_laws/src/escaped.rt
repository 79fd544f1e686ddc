//! Escaped text is read back.
ghost use Rattle.std.specs.FinMap as finite;
ghost use Rattle.std.specs.Prelude.{◌≡◌, ◌↔◌, ◌∷◌, [], ◌++◌, ℕ, codes, false, true, List, Some};
ghost use Rattle.document_laws.specs.Escaped.{HasNoNul, KnowsEscapes, ReadsReferences};
ghost use Rattle.token_grammar.specs.Items.{characters};
ghost use Rattle.token_grammar.specs.Reading.{Reading};
ghost use Rattle.token_grammar.specs.References.{value_of};
ghost use Rattle.token_grammar.specs.Tags.{written_value};
ghost use Rattle.token_grammar.specs.declared.modes.Mode.{Mode as SeenMode};
ghost use Rattle.lex_base.specs.References.{References, basic};
ghost use Rattle.tree_serializer.specs.Escapes.{escaped};

use html_lexemes::ReferenceTable;
use token_grammar::TokenSink;
use token_grammar::laws::{one_reading, some_reading};
use tree_serializer::an_escape_holds_no_markup;

/// The reading of an escaped text, whatever follows it, emits the text: in ordinary text, and in that of a title or a
/// text area, for every sink.
pub fn an_escaped_text_is_read_back<S: TokenSink>()
    ensures { (table : References) (mode : SeenMode) (state : S.Abstract) (cs rest : List ℕ) (final : S.Abstract) →
        KnowsEscapes table → HasNoNul cs → ReadsReferences mode.text →
        Reading table S.means mode state (escaped false cs ++ rest) final
        ↔ Reading table S.means mode (S.means.step state (characters cs)) rest final }
{
    one_reading::<S>();
    some_reading::<S>();
}

/// An escaped value, between the quotes in which it is written, ends at the second one, whatever follows, and its
/// reading is the value.
pub fn an_escaped_value_is_read_back()
    ensures slice { (cs rest : List ℕ) → written_value (34 ∷ escaped true cs ++ 34 ∷ rest)
        ≡ Some (record { slice = escaped true cs; rest = rest }) }
    ensures value { (table : References) (cs : List ℕ) → KnowsEscapes table → HasNoNul cs →
        value_of table (escaped true cs) ≡ cs }
{
    an_escape_holds_no_markup();
}

/// The table of the five basic references is one by which escaped text is read back.
pub fn the_basic_table_knows_escapes()
    ensures { KnowsEscapes basic }
{}

/// So is every table of references in which these names stand for these characters.
pub fn a_table_of_these_names_knows_escapes(table: &ReferenceTable)
    ensures { finite.get table.now (codes "amp;") ≡ Some (38 ∷ []) →
        finite.get table.now (codes "lt;") ≡ Some (60 ∷ []) → finite.get table.now (codes "gt;") ≡ Some (62 ∷ []) →
        finite.get table.now (codes "quot;") ≡ Some (34 ∷ []) →
        finite.get table.now (codes "nbsp;") ≡ Some (160 ∷ []) → KnowsEscapes table.now }
{
    table.names_are_names();
}
