//! Laws of the pages of articles: what they convert to, and how that is laid out and rendered.
//!
//! # Layout
//!
//! What the values of articles ask for and are laid out as: what the layout of articles says.
//!
//! ## What is proved
//!
//! The render values of an article's page (`page_values`, article_definitions, `specs/ArticleValues.antt`) are a
//! definition by recursion on the article: a block for each paragraph, a quote for each quote, a text for each mark
//! that is not empty, no link that shows nothing.
//!
//! - `values_ask_for_what_the_article_asks`: the values of blocks, of items and of what a paragraph says ask at
//!   least for the columns that the layout says (`least_of`, `least_of_items`, `least_in`); the prefixes of plain
//!   text have the columns that the layout gives them
//! - `values_of_a_paragraph_are_its_calls`, `values_of_blocks_are_their_calls`: the walk of a render tree (`lay`),
//!   in any renderer of plain text whose mode of white space is normal and whose parts keep the width, does to the
//!   block of lines there what the layout's calls of texts and breaks, or of blocks, do (`run`, `run_blocks`), adds
//!   the targets of the links, and has no result just where these calls do
//! - `values_of_a_page_are_its_calls`: the same of the whole page, that begins with nothing
//!
//! The last three are of articles none of whose texts is empty, which every article without a fault is. An empty
//! text in front of a span fills a padded line under the paragraph's annotations in the layout, and under the
//! span's on a page, which has no value for it. With `calls_of_an_article` (article_definitions) they say which lines
//! stand on the page when its last line is ended, but for those of the targets.
//!
//! # Conversion
//!
//! What the page of an article is converted to, by recursion on the article.
//!
//! ## What is proved
//!
//! - `articles_have_their_values`: the article's tree is converted to the article's values (`page_values`) and no
//!   others, by the rules that mark emphasis, strong text, terms and code, or by none, where the first numbers of
//!   lists are numbers of 64 bits
//!
//! # Rendering
//!
//! How the values of an article's page are rendered: as the article itself.
//!
//! ## What is proved
//!
//! - `articles_are_laid`: the lines that the article's values are rendered as (`page_lines`) are the article's, and a
//!   width is too narrow for them just where the article has none: where no part may pass the width, and no text is
//!   empty
//!
//! # Articles without quotes and strong text
//!
//! Articles without quotes and strong text: what is written of them, and their lines where no links share a footnote,
//! by definitions that know none of these.
//!
//! ## What is proved
//!
//! Articles without quotes and strong text are values of their own (`PlainBlocks`), and what is written of them and
//! their lines are definitions that know neither (`plain_text`, `plain_lines`); `wide_blocks` makes articles of
//! them.
//!
//! - `written_text_stays`: what is written of such an article is what the definition that knows no quote and no
//!   strong text gives
//! - `lines_stay`: so are its lines where no links share a footnote and targets stand as they are, and it has none just
//!   where that definition gives none
//!
//! So what was written of articles before they could hold quotes and strong text, and their lines, are as they
//! were.
#![tactic(auto)]

mod conversion;
mod plain;
mod rendering;
mod walk;

pub use conversion::articles_have_their_values;
pub use plain::{lines_stay, written_text_stays};
pub use rendering::articles_are_laid;
pub use walk::{
    values_ask_for_what_the_article_asks, values_of_a_page_are_its_calls,
    values_of_a_paragraph_are_its_calls, values_of_blocks_are_their_calls,
};
