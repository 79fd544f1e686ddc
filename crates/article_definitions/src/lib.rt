//! The layout of articles, by recursion on the value, and its laws: what a change of one text changes, that visible
//! characters are shown once, and which articles always have lines.
//!
//! # What is proved
//!
//! The lines of an article (`article_lines`, `specs/Layouts.antt`) are a definition by recursion on its value,
//! which knows no tag, escape, parser or tree of nodes: what a paragraph says between two breaks is laid out as
//! normal text (`normal_lines`), headings and items stand after prefixes in the room that these leave, empty lines
//! part what has content, and the targets of links come last. A quote is laid out as a part of its own after `> `
//! on each of its lines, in the room that this leaves; strong text has `**` round it where marks are asked for.
//! Each line has the number of its paragraph, or none. Links are numbered and rooms asked for by what an article
//! is, not by what a text says. A link's number is its place among the links, or that of the first link to an equal
//! target where footnotes are shared.
//!
//! - `exchange`: two articles that differ in one text, where both texts have a visible character, and that both
//!   have lines: all lines but those of its paragraph are equal, in order, those of the targets among them
//! - `visible_characters_once`: the lines of what is said between two breaks have its visible characters (of a
//!   column at least, and no white space) once, in order
//! - `paragraphs_are_never_refused`: an article of paragraphs alone has lines where a line of text may have two
//!   columns
//! - `calls_of_a_paragraph`, `calls_of_an_article`: the calls of a block of lines (`block_layout`) that an article
//!   stands for lay just its lines, but for those of the targets, and have no result just where it has none
//! - `calls_of_a_whole_article`: the same with the calls of its targets, where they stand after it: all its lines
//!
//! Laws over definitions alone; the edits change the lines. The definition, read once more in Python, gives the
//! lines of an independent model for each of its 272 articles without a fault, or none where the model has none,
//! with every option but that of links that are not cut, which the model's articles don't have. Not pinned by the
//! laws, but by those articles: marks, prefixes and the rooms after them, which lines and calls have from the same
//! words, and the lines of the targets.
#![tactic(auto)]

mod laws;

pub use laws::{
    calls_of_a_paragraph, calls_of_a_whole_article, calls_of_an_article, exchange,
    paragraphs_are_never_refused, visible_characters_once,
};
