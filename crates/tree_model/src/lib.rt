//! What a tree is built from, the words of tree construction, and what they keep (WHATWG HTML, 13.2.4 and 13.2.6): the
//! stack of open elements and the list of active formatting elements, held beside the nodes, and the laws of both.
//!
//! # What is proved
//!
//! Of `tree_model` and `html_tree_state`.
//!
//! A tree that is being built is seen as its stack of open elements, its formatting list, whether foster parenting
//! is on, its nodes and its quirks mode (`Building`). `Sound` says that the nodes are a forest; open elements are
//! elements, pairwise distinct, a template among them has contents, and none is above one that is farther from the
//! current node; listed elements are formatting elements named as their tags, at most three alike after the last
//! marker; the counts of open elements by name, which are held beside the stack, are right. These definitions,
//! those of the words, and `words_keep_a_tree_sound` (below) are tree_model's.
//!
//! tree_model's `Held` is what is held beside the nodes: open elements, the latest last, the formatting list,
//! whether foster parenting is on, and the counts. Each of its calls changes what its name says and nothing else:
//! `push`, `pop`, `take_off`, `replace`, `open_below` the stack, by `below_current`, `left_out`, `replaced` and
//! `put_before`, and its counts stay those of the stack where they were; `push_marker`, `clear_to_marker`,
//! `push_formatting`, `unlist`, `give`, `hand_over`, `list_at` the list; `set_fostering` the flag. Refused, where
//! allocation fails, they leave it as it was. `position` is where an element stands among the open ones, or that it
//! does not; `first_element` and `last_element` are the first and the last. Not pinned: which allocator `alloc`
//! gives (a program has one). `rt plant` has not run on tree_model and rules_head since they became crates of
//! their own; wrong bodies stand for each call of `Held` but `alloc`, and for the three functions.
//!
//! Every call of html_tree_state asks for `Sound`. A call that changes the tree is exactly its word (`seen`) and
//! keeps `Sound` where it isn't refused; refused or not, the nodes stay a forest; the error is allocation failure
//! alone. So each condition of a tree sink is met at every call, for every sink.
//!
//! - `in_scope`, `has_open`: whether an element of a set stands before the first barrier or is that barrier;
//!   whether one is open
//! - `current_node`, `adjusted_current_node`, `html_elem`: the first of the stack; a fragment's context while no
//!   more than its root is open; the element that was opened first
//! - `pop`, `pop_to`, `pop_down_to`, `pop_with`, `remove_from_stack`: popping one, up to one of a set, down to one
//!   of a set, up to an element; taking an element off
//! - `generate_implied_end_tags`, `close_p_element_in_button_scope`, `process_end_tag_in_body`, `close_item`: as
//!   the standard says, "any other end tag" among them; a list item or definition before any special element but
//!   `address`, `div` and `p`
//! - `is_open`, `is_element_open`, `is_element_in_scope`, `remove_from_list`: whether an element itself is open, or
//!   in scope; its entry is taken off the list
//! - `last_listed`, `remove_element_from_stack`: the latest element after the last marker whose tag has a name,
//!   which is an element; an element is taken off, and not looked for where none of its name is open
//! - `insertion_point`, `appropriate_place_for_insertion`: the appropriate place, fostered or in a template's
//!   contents; there is such a place
//! - `insert_element`, `insert_element_at`, `insert_element_for`, `append_text`, `append_comment`,
//!   `append_comment_to_document`, `append_doctype_to_document`: a node or characters there, or at a place that is
//!   given; the element becomes the current node, or not
//! - `insert_formatting_element`, `insert_marker`, `clear_active_formatting_to_marker`: the same with the list
//! - `reconstruct_active_formatting_elements`: the entries after the last marker and after the last one that is
//!   open, each made anew in its order
//! - `adoption_agency`: the adoption agency for an end tag's name: at most eight turns, in each of which the last
//!   node, the copies and what the furthest block holds go where the standard says
//! - `add_attributes_if_missing`, `set_quirks_mode`: attributes that are missing; the mode
//! - `reset_insertion_mode`: the mode that the open elements ask for
//! - `break_out_of_foreign_content`: popping until an element of HTML or an integration point
//! - `process_end_tag_in_foreign_content`: popping up to the first element of the tag's name, before any element of
//!   HTML; else the tag is the insertion mode's
//!
//! `words_keep_a_tree_sound` is the same as a law over the definitions, for whoever stands above: each word keeps a
//! sound tree sound, takes no node away, and leaves an element one.
//!
//! The words, the adoption agency among them, are computed on rows (`test_tree_state`): small pages with misnested
//! formatting, blocks in formatting elements, four alike, four nodes between, a formatting element after a table,
//! end tags in SVG. Shown by the cases `tree` of stored_rows, as whole pages: a template's contents, which of four
//! formatting elements alike are made anew, nine pages of the adoption agency (those of the rows, an anchor after
//! an anchor, attributes that are copied, nine blocks for eight turns), two end tags among foreign elements,
//! quirks, what breaks out of foreign content, integration points and hidden inputs. Tested (`test_trees`): generic
//! functions over any `TreeSink` build pages by these calls, and in `RcDom` what they built is compared with lines
//! written from the standard's words: texts, comments and attributes, paragraphs and buttons, a table's foster
//! parent, what is popped, end tags, scopes, four formatting elements alike, modes, foreign elements; the calls of
//! tree_formatting and tree_predicates too (but for `stands_after_marker` and `give`).
//!
//! `rt plant`: of 126 wrong bodies that it could judge all are refused, before the adoption agency was there, and
//! of the 60 of that agency's files all; it could judge none of `has_open`, `in_scope`, `is_fostering`,
//! `formatting`, `html_elem`, `insertion_point` and `appropriate_place_for_insertion`, for four of which wrong
//! bodies stand. It has not run on `close_item`, `append_doctype_to_document` and the law, for the first two of
//! which wrong bodies stand.
//!
//! Neither proved nor tested: that a sink learns which elements were popped (an element that is taken off from
//! between others isn't reported at all), and what a call costs. What is looked for by its name (a test of scope,
//! an end tag, a list item, a formatting element) asks the counts first, and where an element of the name may be
//! open looks at the open elements up to its answer; `bench/nested_divs.sh` and `bench/trees.sh` show what that
//! comes to. So an end tag whose element is open after many others that are in its way, again and again, still
//! takes as many steps each time.
#![tactic(auto)]

mod adopting;
mod held;
mod insertion_point;
mod laws;
mod push_flag;

pub use adopting::{adopting_keeps_sound, adopting_may_be_done, the_walk_goes_on};
pub use held::{Held, first_element, last_element, position};
pub use insertion_point::InsertionPoint;
pub use laws::{laws_of_forests, words_keep_a_tree_sound};
pub use push_flag::PushFlag;
