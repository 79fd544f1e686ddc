//! The laws of forests that the words of this crate stand on, together; and what these words keep.
ghost use Rattle.tree_model.specs.Laws.{Laws};
ghost use Rattle.tree_model.specs.Words.{Words};

use tree_forest::{
    attributes_keep_a_forest, elements_stay, how_many_nodes_there_are, making_keeps_a_forest,
    putting_keeps_a_forest, reparenting_keeps_a_forest, taking_out_keeps_a_forest,
    texts_side_by_side_are_one, what_stands_above_what, what_was_made_may_be_put,
    what_was_not_named_stays, where_children_stand,
};
use tree_formatting::at_most_three_are_alike;

/// What is known of a forest and its changes.
pub fn laws_of_forests()
    ensures { Laws }
{
    putting_keeps_a_forest();
    making_keeps_a_forest();
    attributes_keep_a_forest();
    what_was_made_may_be_put();
    where_children_stand();
    how_many_nodes_there_are();
    taking_out_keeps_a_forest();
    reparenting_keeps_a_forest();
    at_most_three_are_alike();
    what_stands_above_what();
    elements_stay();
    what_was_not_named_stays();
    texts_side_by_side_are_one();
}

/// Each word of tree construction keeps a sound tree sound, takes no node away, and an element stays one. Characters
/// that are inserted one after another are inserted as if they had come together, and after them nothing is
/// reconstructed twice.
pub fn words_keep_a_tree_sound()
    ensures { Words }
{
    laws_of_forests();
}
