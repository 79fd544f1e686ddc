//! Tests alone, with answers from outside: calls of the lowest layers, the parse errors of lexemes, and what a
//! tokenizer emits to a sink that chooses kinds of text, pauses, states and refusals. Rows of pages stand in the cases
//! `tokens` of stored_rows.
#![tactic(auto)]

#[cfg(test)]
mod checks;
#[cfg(test)]
mod device_tests;
#[cfg(test)]
mod error_tests;
#[cfg(test)]
mod feeding;
#[cfg(test)]
mod names_tests;
#[cfg(test)]
mod page_tests;
#[cfg(test)]
mod queue_tests;
#[cfg(test)]
mod sinks;
#[cfg(test)]
mod table_tests;
