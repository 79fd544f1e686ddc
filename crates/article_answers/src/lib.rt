//! Articles and the pages that are written of them have the same lines, from bytes on.
//!
//! # What is proved
//!
//! - `an_article_is_laid_out_as_itself`: whatever is answered (`HasAnswer`) to the bytes of what is written of the
//!   article is the article's own answer (`article_answer`): its lines, or that it is too narrow; never that there
//!   is nothing to render
//!
//! - `LayArticle::layout` of `Article`: the lines are the article's own (`article_lines` of article_definitions) by
//!   what the configuration says of columns, filling, marks and targets, each with its characters, their annotations
//!   and the number of its paragraph: `lines`; it is `TooNarrow` only where the article has none: `narrow`; else it is
//!   refused where allocation fails: `kinds`
//! - the same: whatever is answered by that configuration to the bytes of what `write_html` writes is these lines
//!   (`page`), or that it is too narrow (`narrow_page`), where the configuration is for articles (`IsForArticles`)
//! - the same: the clauses `shown`, `fewest`, `exchange` and `paragraphs` of `lay_article`
//!
//! A configuration is for articles where pages are parsed as by default, with scripting or without it, by a table that
//! knows the five names, no part may pass the width, and the rules of style are those of `do_decorate`, or none where
//! that was not called; so are `Config::plain`, `plain_no_decorate` and all that comes of them without `style_rules`,
//! `allow_width_overflow` and `parse_opts`. Of any other configuration `layout` gives the article's lines too,
//! which its page need not have.
//!
//! `plain_configurations_are_for_articles` says so of `Config::plain` (`IsPlain`) with such a table, and that a
//! configuration stays one for articles whatever is asked of the conversion, and parsed with scripting or without it:
//! so after `complete` and `skip_hidden`.
//!
//! The law says nothing of whether there is an answer, which is where memory is found (`a_page_has_an_answer`). The
//! edits change what is said of the article; that an article's first numbers are numbers of 64 bits is
//! `first_numbers_fit`. Not pinned: a `layout` that always answers `Memory`. The cases `article` of stored_rows
//! compare the lines of 800 articles of an independent model and of rows written by hand with those of their pages,
//! read whole and a byte at a time.
#![tactic(auto)]

mod laws;
mod layout;

pub use laws::{an_article_is_laid_out_as_itself, plain_configurations_are_for_articles};
pub use layout::LayArticle;
