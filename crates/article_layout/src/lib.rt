//! Articles, laid out: lines by a walk over the value, which knows no tag, no parser and no tree.
//!
//! # What is proved
//!
//! - `lay_article`: the lines are the article's (`article_lines` of article_definitions), each with its characters,
//!   their annotations and the number of its paragraph: `lines`; it is `TooNarrow` only where the article has none:
//!   `narrow`; else it is refused where allocation fails: never `Failed`
//! - the same: what is said between two breaks shows its visible characters once, in order (`shown`), on no more
//!   lines than any legal layout of it (`fewest`); where another article has one text in place of another, each
//!   with a visible character, and has lines, all lines but those of that paragraph are the same, in order
//!   (`exchange`); blocks that are paragraphs alone are never too narrow where a line of text may have two columns
//!   (`paragraphs`)
//!
//! It takes any blocks, those with faults too. The calls go as deep as blocks are nested, 256 at most in an
//! article; what a list or a quote asks for is measured at each level, so that lists within lists are measured once
//! a level. The numbers of paragraphs and of links are counted up to what memory can hold.
//!
//! The cases `article` of stored_rows have the lines of the model's 800 articles and of the rows written by hand.
//! Not pinned: a `lay_article` that always answers `Memory`.
#![tactic(auto)]

mod blocks;
mod footnotes;
mod inlines;
mod layout;
mod leasts;
mod line_list;
mod options;
mod paragraphs;
mod prefixes;

pub use layout::{ArticleLine, lay_article};
pub use options::LineOptions;
