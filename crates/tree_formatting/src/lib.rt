//! The list of active formatting elements (WHATWG HTML, 13.2.4.3): a part of html_tree_state.
//!
//! # What is proved
//!
//! The list of active formatting elements (WHATWG HTML, 13.2.4.3). Contracts speak of its entries by the numbers of
//! their elements, the latest first (`entries_of`), whatever the numbers are.
//!
//! - `FormattingList::new`, `as_slice`: no entries; the entries, lent
//! - `push_marker`, `push_element`, `clear_to_marker`: a marker after all; an element after all, of three that
//!   are alike the earliest gone; what stands before the last marker
//! - `last_named`, `contains`, `tag_of`: the latest element of a name after the last marker; whether an element is
//!   listed, and its tag
//! - `stands_after_marker`: whether an element is listed after the last marker, once another's entry is taken off
//! - `remove`, `hand_over`, `move_after`, `give`: an entry is taken off; another element takes it over; it goes
//!   right after another's; the entry of a place goes to another element
//! - `iter_to_marker`, `ActiveFormattingIter::next`: each entry after the last marker, the latest first, with its
//!   place and tag, then `None` for good
//! - `tags_that_are_alike_are_equivalent`: a law: the test of two tags is that they are the same but for the order
//!   of their attributes
//! - `at_most_three_are_alike`: a law: at most three elements that are alike stand after the last marker, wherever
//!   the list is cut, whatever is done to it
//!
//! A refused call leaves the list as it was. The definitions are computed on rows. `rt plant` lets nothing through;
//! it could judge no wrong body of `contains` and of the laws.
//!
//! Beside its entries the list holds how many of them have each name and each tag, by numbers made of these, or
//! more: where no entry has the name, `last_named` goes over none; where fewer than three have the tag's number,
//! `push_element` compares with none, and else no further than to the last of them. That no answer turns by it is
//! proved; no clause speaks of time.
#![tactic(auto)]

mod counted;
mod entry;
mod find;
mod iter;
mod laws;
mod list;
mod prints;
mod rows;
mod taken;

pub use entry::FormatEntry;
pub use iter::ActiveFormattingIter;
pub use laws::{at_most_three_are_alike, tags_that_are_alike_are_equivalent};
pub use list::FormattingList;
