//! Tests alone: lines, blocks and renderers, borders and rows of cells, and what decorators answer, with texts that are
//! worked out by hand or from elsewhere. What the calls of a renderer give stands in the cases `blocks` of stored_rows.
#![tactic(auto)]

#[cfg(test)]
mod annotation_tests;
#[cfg(test)]
mod block_tests;
#[cfg(test)]
mod border_tests;
#[cfg(test)]
mod checks;
#[cfg(test)]
mod decorator_tests;
#[cfg(test)]
mod line_tests;
#[cfg(test)]
mod renderer_tests;
#[cfg(test)]
mod table_tests;
#[cfg(test)]
mod width_tests;
