//! What stands below tokens: known names, owned texts, devices of bytes, and tables of character references.
//!
//! # Known names
//!
//! The names that the standards of HTML say most often, as an enum: of the elements that tree construction asks about
//! (WHATWG HTML, 13.2.6), and of common attributes.
//!
//! ## What is proved
//!
//! - `KnownName::as_str`: the text of each of the 142 names, as `known_text` lists them
//! - `known_of`: the known name whose text this is, and `None` for every other text
//!
//! Equality of known names is the derived one; two of them have one text only where they are one. `rt plant` has
//! not run on this crate; three wrong bodies were refused.
//!
//! # Owned texts
//!
//! Owned texts: each is the list of its code points, with the equality, the order and the hash of that list.
//!
//! ## What is proved
//!
//! - `Text`: made of a text and given back as the same list of code points; `try_clone` equals its source; `==`,
//!   `<` and the hash are those of that list, and the laws of `Eq`, `Ord` and `Hash` hold. The order of the bytes
//!   is shown to be that of the code points
//! - `Text::push_str`: characters after the others, or the text as it was
//! - `Text::into_string`: the characters as a `String`. Which texts are kept in the value itself, and so take
//!   memory for it, no clause says
//!
//! # Devices of bytes
//!
//! The devices that bytes come from and go to: readers and writers that have one fault, and those of std as such.
//!
//! ## What is proved
//!
//! - `Device` as `ByteReader`, `ByteWriter`: a call is refused exactly where the device has failed when it returns;
//!   a failed device stays failed; counts are within the slice; for some room 0 is a reader's end, and no writer's
//!   answer; the bytes that are consumed and added, where they are known; a refused write leaves a beginning;
//!   whether a flush that was not refused came after its last write
//! - `Device::new`, `into_inner`: what it was made of; it has not failed, and has given nothing
//!
//! Only tested (in `test_tokens`): that a `Device` doesn't fail by itself, where its reader or writer has refused
//! nothing (no clause says it); and that it reports to a flush that its writer refused, since std's `Write` shows
//! contracts nothing of that.
//!
//! # Tables of references
//!
//! Tables of named character references (WHATWG HTML, 13.5), made of pairs or of a JSON text, and the longest name that
//! a text begins with.
//!
//! ## What is proved
//!
//! - `ReferenceTable::new`: the table of the pairs, the last value of a name staying, or the first fault, a name's
//!   before its value's, with the name as given
//! - `ReferenceTable::basic`: the map of the five names
//! - `ReferenceTable::from_json`: the table of the value that `serde_json` reads, or the first fault in the order
//!   `NotJson` (exactly where there is no reading), `NotAnObject`, then by the byte order of keys `BadName` before
//!   `BadCodePoints`; else `Memory`
//! - `ReferenceTable::value`, `has_name_beginning`, `has_longer_name`, `longest_name`: the map's value of a name;
//!   whether some name begins with a text, and whether a longer one does; the longest name that a text begins with,
//!   or that there is none
//! - `ReferenceTable::names_are_names`: that each name of a table is a name, and each value one or two characters
//!   other than NUL
//!
//! Only tested, by the cases `reference` of stored_rows: the standard's whole table (2,231 names).
#![tactic(auto)]

mod device;
mod find;
mod json;
mod json_rows;
mod known;
mod rows;
mod table;
mod table_error;
mod text;

pub use device::{ByteReader, ByteWriter, Device, DeviceFault};
pub use find::known_of;
pub use known::KnownName;
pub use table::{NamedReference, ReferenceTable};
pub use table_error::TableError;
pub use text::Text;
