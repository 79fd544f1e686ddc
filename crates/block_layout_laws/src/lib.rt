//! What holds of every block of lines, said without what its calls do: laws, beside `block_layout`.
#![tactic(auto)]

mod laws;
mod retagging;

pub use laws::{calls_keep_the_width, cells_hang_until_a_row, overflow_never_refuses};
pub use retagging::calls_heed_no_tags;
