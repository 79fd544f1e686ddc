//! A law of trees of pages.
ghost use Rattle.std.specs.Prelude.{◌≡◌, ℕ, List};
ghost use Rattle.tree_forest.specs.Forest.{Forest};
ghost use Rattle.tree_forest.specs.declared.sink.QuirksMode.{QuirksMode as Quirks};
ghost use Rattle.html_tokenizer.specs.OtherSinks.{GoesOnAs, HoldsIn, with_sink};
ghost use Rattle.html_tokenizer.specs.declared.tokenizer.Tokenizer.{Tokenizer};
ghost use Rattle.html_tree_builder.specs.Fragments.{Fragment, IsTreeOfFragment};
ghost use Rattle.html_tree_builder.specs.Grown.{Beginning, IsTreeOfPage};
ghost use Rattle.html_tree_builder.specs.Parsers.{state_in};
ghost use Rattle.html_tree_builder.specs.declared.builder.TreeBuilder.{TreeBuilder};
ghost use Rattle.rules_table.specs.Settling.{meaning};
ghost use Rattle.rules_table.specs.Welcome.{IsReady, IsWelcome};

use crate::builder::TreeBuilder;
use html_tokenizer::a_sink_may_change_but_for_its_state;
use token_grammar::laws::one_reading;
use tree_forest::TreeSink;

/// A page has one tree: whoever parses equal texts with equal options, in whatever pieces, has equal forests.
pub fn a_page_has_one_tree<S: TreeSink>()
    ensures forest { (from : Beginning) (text : List ℕ) (one other : Forest) (mode second : Quirks) → IsTreeOfPage
        S.view.handle from text one mode → IsTreeOfPage S.view.handle from text other second → one ≡ other }
    ensures quirks { (from : Beginning) (text : List ℕ) (one other : Forest) (mode second : Quirks) → IsTreeOfPage
        S.view.handle from text one mode → IsTreeOfPage S.view.handle from text other second → mode ≡ second }
{
    one_reading::<TreeBuilder<S>>();
}

/// A fragment has one tree: whoever parses equal texts for equal contexts, with equal options, in whatever pieces, has
/// equal forests.
pub fn a_fragment_has_one_tree<S: TreeSink>()
    ensures forest { (from : Beginning) (fragment : Fragment) (text : List ℕ) (one other : Forest)
        (mode second : Quirks) → IsTreeOfFragment S.view.handle from fragment text one mode → IsTreeOfFragment
        S.view.handle from fragment text other second → one ≡ other }
    ensures quirks { (from : Beginning) (fragment : Fragment) (text : List ℕ) (one other : Forest)
        (mode second : Quirks) → IsTreeOfFragment S.view.handle from fragment text one mode → IsTreeOfFragment
        S.view.handle from fragment text other second → mode ≡ second }
{
    one_reading::<TreeBuilder<S>>();
}

/// Somebody else may change a builder after its tokenizer, if the state of tree construction stays.
pub(crate) fn a_builder_may_change_but_for_its_state<S: TreeSink>()
    ensures { (tokenizer : Tokenizer (TreeBuilder S S.Handle S.Output)) (builder : TreeBuilder S S.Handle S.Output)
        (holds : HoldsIn tokenizer) → state_in S.view builder ≡ state_in S.view tokenizer.sink → GoesOnAs
        (state_in S.view) (meaning S.view.handle) IsReady IsWelcome tokenizer (with_sink builder tokenizer holds) }
{
    a_sink_may_change_but_for_its_state::<TreeBuilder<S>>();
}
