//! The targets of links, the numbers of their footnotes, and lines after a page.
//!
//! # Targets
//!
//! The targets of links, and the numbers of their footnotes.
//!
//! ## What is proved
//!
//! The targets of links are a list in the order of the links (`specs/Targets.antt`). Each link has a footnote of
//! its own, or, where footnotes are shared, each target has one, the first link's (`distinct`); a footnote's number
//! is its place.
//!
//! - `LinkTargets::new`, `push`: no link; one link more, or none more after an allocation failure
//! - `LinkTargets::last_number`: the number of the last link's footnote, as footnotes are shared or not; the links
//!   stay
//! - `LinkTargets::into_noted`: just the targets that have footnotes, in the order of their numbers
//! - `links_share_footnotes`: a law of shared footnotes: each target has just one, the number after a link is the
//!   place of its own target, and stays so whatever links follow; there is one where there is a link
//! - `shown_targets`: the targets as they stand, or with their unprintable characters percent-encoded
//!   (`specs/Printable.antt`)
//! - `printable_targets_lose_nothing`: a law of `printable`: nothing unprintable is left, what has none stays as it is,
//!   and a target without `%` is had back by percent-decoding
//!
//! Not pinned: that memory is found, and how often a target is looked up (once, by reading).
//!
//! # Lines after a page
//!
//! Lines after a page: each character under its annotation alone, cut at a width.
//!
//! ## What is proved
//!
//! `text_footnotes`, and `into_footnote_lines` of a line that is given away, give exactly the lines of their
//! definition: a line after a page, each character under its annotation alone, cut at a width where there is one;
//! no text of a line is empty, and none stands next to one with an equal tag. Their error is allocation failure. No
//! line passes a width of two columns or more (`footnotes_keep_the_width`).
#![tactic(auto)]

mod cutting;
mod footnotes;
mod laws;
mod link_targets;
mod numbers;
mod printable;
mod target_laws;

pub use footnotes::{footnote_lines, into_footnote_lines};
pub use laws::footnotes_keep_the_width;
pub use link_targets::LinkTargets;
pub use printable::shown_targets;
pub use target_laws::{links_share_footnotes, printable_targets_lose_nothing};
