//! What holds of every renderer, said without what its calls do: laws, beside `block_renderer`.
#![tactic(auto)]

mod bare;
mod laws;

pub use bare::annotations_change_no_text;
pub use laws::{
    a_prefix_and_its_room_are_the_width, renderers_keep_the_width, renderers_with_room_never_refuse,
};
