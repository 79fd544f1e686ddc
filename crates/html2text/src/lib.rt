//! The program `html2text`: what it writes of a page, what it answers to the words of its command line, and how it
//! ends; with the libraries that it stands on, `page_config` and `command_line`, and with articles.
//!
//! # What is proved
//!
//! - `run`: over any decorator: see the theorem of pages
//! - `respond`: status 0 only where all that the words ask for was written (the text of the page of the file that
//!   they name, or of standard input, as they ask for it: its width, rich, with marks or without, with targets, by
//!   the references of the file that they name, and of at most so many bytes; or a help text), the writer has not
//!   failed and was flushed, and nothing was reported; status 1 only where the page was refused or its file not
//!   opened, for an error that is reported after `html2text: ` and whose reason holds of the bytes and devices (or
//!   the help could not be written), and the writer is as it was or has failed with a beginning of the text; status
//!   2 only where the words were refused, for a fault that is reported, with nothing read and nothing written;
//!   status 3 only where the words name a table and none was had, for a fault that is reported and whose reason
//!   holds of the file's bytes, with nothing read of standard input and nothing written
//! - `a_page_is_written_in_one_way`: a law: what is written of the same bytes for the same words is one text, and a
//!   text, a width that is too narrow, and nothing to render exclude one another
//! - `what_is_written_keeps_its_width`: a law: no line of it passes the width that is asked for, of two columns or
//!   more
//! - `carry_out`: the same for a request or a fault of words that is handed in, with the very texts: clap's, the
//!   help, those of the errors
//! - `exit_status`: the status of each outcome
//!
//! What is not pinned: that memory is found; that a file is opened or read where it could be (of a file nobody sees
//! whether a read has failed, so `read or write failed` may be reported of any that is named); a body of a device's
//! flush that doesn't pass the call on; the help text and clap's wording, of which the tests ask a part alone; and
//! that `respond` leaves its reader at the end of the page. So a `respond` that reports allocation failure for every
//! page would be proved; the tests call it with ample memory, and with files. `serve` reaches real devices and
//! files, of which no clause knows the bytes: its contract says that it ends with 0, 1, 2 or 3, and the stored run
//! of html2text_program shows that it hands the words, the files and standard output to `respond`: a page in a file
//! with a table of references in another, with headings, lists, links, a quotation, preformatted text and a table,
//! whose lines were worked out by hand. That it hands on standard input and standard error, and ends with another
//! status than 0 where `respond` gives one, is shown by `tools/command_lines.sh` alone, which is run by hand; that
//! `respond` answers 1 for a page that is too narrow, with one text on its errors and nothing written, is tested
//! (test_pages). What `serve` gives is a `Served`, which nothing else makes, so a `main` that answers one ends with
//! no other status. `example_mail_page` shows the library called by another program: a page is read once and laid out
//! by two configurations.
#![tactic(auto)]

mod laws;
mod outcome;
mod program;
mod response;
mod showing;
mod writing;

pub use article_answers::LayArticle;
pub use article_layout::ArticleLine;
pub use article_values::{Article, ArticleError, Block, Inline};
pub use article_writing::{SerializableArticle, WriteArticle};
pub use block_trait::{ImageRenderMode, RenderOptions};
pub use command_line::{
    FileOpener, HostFiles, OpenedFile, Request, TableFault, WordFault, read_words, request_of,
};
pub use dom_styles::{Display, Importance, Style, StyleDecl, StyleOrigin, StylePlace, StyleRule};
pub use html_lexemes::{
    ByteReader, ByteWriter, Device, DeviceFault, LocalName, ParseFault, ReferenceTable, TableError,
    states,
};
pub use html_render_dom::RcDom;
pub use html_render_tree::RenderTree;
pub use html_tree_builder::{ParseOpts, TokenizerOpts, TreeBuilderOpts};
pub use html_tree_state::QuirksMode;
pub use laws::{a_page_is_written_in_one_way, what_is_written_keeps_its_width};
pub use outcome::{Outcome, exit_status};
pub use page_config::{
    Config, Error, Page, PlainLine, RichLine, a_page_has_an_answer, a_page_has_one_answer,
    a_page_has_one_plain_answer, a_page_has_one_plain_text, a_page_has_one_text,
    a_page_keeps_its_width, a_page_with_room_is_never_too_narrow, a_plain_text_keeps_its_width,
    a_text_keeps_its_width, from_read, from_read_rich, from_read_with_decorator, parse,
};
pub use page_decoding::Utf8LossyDecoder;
pub use page_laws;
pub use program::{Served, serve};
pub use response::{carry_out, respond};
pub use text_decorators::{
    Colour, PlainDecorator, RichAnnotation, RichDecorator, SteadyPrefixes, TextDecorator,
    TrivialDecorator, footnotes,
};
pub use text_lines::{Columns, TaggedLine, TaggedLineElement, TaggedString, UnicodeColumns};
pub use text_pieces::{TooNarrow, WhiteSpace};
pub use writing::run;
