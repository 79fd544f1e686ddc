//! Tests alone, with answers from outside: trees that are built by every call of a tree sink and by the calls of tree
//! construction; each call of a parser; trees as lines and as HTML, what is asked of their nodes, and the styles of
//! their elements; what a serializer writes, with a writer that fails and memory that is refused. What trees pages and
//! fragments have stands in the cases `tree` of stored_rows.
#![tactic(auto)]

#[cfg(test)]
mod checks;
#[cfg(test)]
mod crowds;
#[cfg(test)]
mod document_tests;
#[cfg(test)]
mod elements;
#[cfg(test)]
mod fact;
#[cfg(test)]
mod finished;
#[cfg(test)]
mod lists;
#[cfg(test)]
mod moves;
#[cfg(test)]
mod outline;
#[cfg(test)]
mod parsing;
#[cfg(test)]
mod rows;
#[cfg(test)]
mod serializer_tests;
#[cfg(test)]
mod sink_tests;
#[cfg(test)]
mod state_tests;
#[cfg(test)]
mod step;
#[cfg(test)]
mod style_tests;
#[cfg(test)]
mod texts;
#[cfg(test)]
mod words;
