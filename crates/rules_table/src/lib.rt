//! The rule table of tree construction (WHATWG HTML, 13.2.6), and the encoding that a `meta` names.
//!
//! # The rule table
//!
//! The rule table of tree construction (WHATWG HTML, 13.2.6): from an insertion mode and what is emitted to what is
//! done.
//!
//! ## What is proved
//!
//! The rule table of tree construction (WHATWG HTML, 13.2.6), all 21 insertion modes and foreign content, as
//! definitions: what a mode makes of a character, NUL, a comment, a doctype, a tag and the end is a row, a list of
//! actions with what is asked of the tokenizer, or that the mode that stands then takes it again (`row`); `rule`
//! says whether the mode's row holds or the rules for foreign content; `act` says what each action makes of the
//! state, and `step` what an item of a page does. `test_rules` computes them on whole pages and on marks in each
//! mode, with answers worked out from the standard's words, and on pages of an independent model: some 600 rows.
//!
//! - `texts_join`: two texts that follow each other are taken as one
//! - `actions_keep_what_is_ready`: each action keeps what holds between two items: the tree is sound, the head is
//!   one of its nodes, and a fragment's context is an element
//! - `open_elements_are_elements`, `adjusted_current_nodes_are_elements`: what is open is an element, and so is the
//!   adjusted current node, a fragment's context among them
//!
//! `but_text` and `out_of_text` keep every action from leading into the mode "text", and from going back to a mode
//! of text: what asks for an element's text alone leads there. No rule does otherwise, so that this changes no
//! page; it lets the laws below go by actions and not by rows.
//!
//! # Encodings
//!
//! The encoding that a `meta` names (WHATWG HTML, 13.2.6.4.4 and 2.5.3).
//!
//! ## What is proved
//!
//! `named_encoding` is the name of the encoding that the attributes of a `meta` tell (`named_encoding`,
//! specs/Encodings.antt): the value of its `charset`, or else, where `http-equiv` is `content-type`, what `content`
//! has after its first `charset` with a `=`. It takes no memory. The definition is computed on 35 rows, worked out
//! by hand from the standard's algorithm. Whether an encoding has that name is not looked at. `rt plant` lets
//! nothing through; it tried the public function alone.
#![tactic(auto)]

mod encodings;
mod laws;
mod options;
mod rows;
mod target;
mod text_modes;

pub use encodings::named_encoding;
pub use laws::{
    actions_keep_what_is_ready, adjusted_current_nodes_are_elements, open_elements_are_elements,
    texts_join,
};
pub use options::TreeBuilderOpts;
pub use target::Target;
pub use text_modes::{but_text, out_of_text};
