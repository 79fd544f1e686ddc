//! What marks text: the trait of decorators, three of them, and what a line of laid out text is made of.
//!
//! # The trait, and colours
//!
//! What marks text: the trait of decorators, and the colours that they are given.
//!
//! ## What is proved
//!
//! The trait of decorators, `SteadyPrefixes` and `Colour`. What a decorator answers is a function of what it holds, and
//! contracts see both by one record, `view`: it
//! says, for each place of a page at which it is asked (`Mark`), the text, which annotations fit, whether there is
//! one, what is held after it, whether an annotation ends, what a decorator for a part of the page holds, and the
//! lines after the page, up to what is seen of their annotations. A law says that all annotations that fit are seen
//! alike.
//!
//! - the 25 calls of `PlainDecorator`: brackets round links and round an image's title, `#` as often as the level
//!   and a space, `> `, `* `, the number with a point and a space, `^{` and `}` round superscripts, no other text
//!   and no annotation; footnotes `[n]: ` and the target from 1
//! - those of `TrivialDecorator`: the title of an image, superscripts and footnotes, no other text
//! - those of `RichDecorator`: plain's prefixes, superscripts and footnotes, the title of an image, no other text;
//!   the annotation that `IsRich` gives: the target, the source, whether a preformatted line was wrapped, the
//!   colours; a colour's annotation ends with it
//! - `SteadyPrefixes` of the three: prefixes depend on level and number alone, whatever is held; of three numbers
//!   of an `i64` in order, the middle one's prefix is no wider than the wider of the others'
//! - `RichAnnotation::try_clone`, its `EqualCopy`: an equal annotation; `==` tests just that
//! - `Colour`'s `Display`: `#` and two lower hexadecimal digits for each part
//! - `superscript_start`, `superscript_end`, `footnotes`: the answers that a decorator may give where it has none
//!   of its own
//!
//! A refused call leaves a decorator as it was; the refusal is allocation failure alone. Not pinned: `new` of the
//! three, each of one value, and that a call succeeds. `rt plant` ran on the three decorators: 77 wrong bodies are
//! refused; it lets through `make_subblock_decorator` that gives the decorator itself, which is right.
//!
//! example_link_counting has a fourth decorator, which counts its links and writes the number after each: it meets the
//! trait's contract and its laws, so what a decorator holds may change its answers. `two_links` there says of any
//! decorator what the texts of two links are.
//!
//! # Three decorators
//!
//! The decorators that mark text, and what a line of laid out text is made of.
#![tactic(auto)]

mod annotation;
mod colour;
mod decorator;
mod default_marks;
mod plain;
mod prefixes;
mod rich;
mod trivial;

pub use annotation::RichAnnotation;
pub use colour::Colour;
pub use decorator::{SteadyPrefixes, TextDecorator};
pub use default_marks::{footnotes, superscript_end, superscript_start};
pub use plain::PlainDecorator;
pub use rich::RichDecorator;
pub use text_lines::{
    Columns, EqualCopy, LineChars, TaggedLine, TaggedLineElement, TaggedString, TaggedStrings,
    UnicodeColumns, laws,
};
pub use trivial::TrivialDecorator;
