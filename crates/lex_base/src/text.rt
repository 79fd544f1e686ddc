ghost use Rattle.std.specs.Prelude.{◌≡◌, ◌++◌, IfOk, OnErr, OnOk, chars, string_bytes, encode_utf8_all, Some};
ghost use Rattle.std.specs.Ordering.{nat_cmp};
ghost use Rattle.std.specs.Cmp.Lexicographic.{nat_list_cmp_total, nat_list_eq_equiv, pointwise, slice_cmp, texts_po};
ghost use Rattle.std.specs.Cmp.Lexicographic.{texts_ties};
ghost use Rattle.std.specs.Cmp as Cmp;
ghost use Rattle.std.specs.Bool.{nat_eq};
ghost use Rattle.std.proofs.Common.{refl, ap};
ghost use Rattle.lex_base.specs.Texts.{same_texts};
ghost use Rattle.std.specs.Hash as fed;

use arrayvec::ArrayString;
use std::alloc::{AllocError, Global};
use std::cmp::Ordering;
use std::fmt::{Debug, Error, Formatter, Write};
use std::hash::{Hash, Hasher};
use std::marker::Model;

/// The most bytes of a text that is kept in the value itself: with their count they take the room of a `String`.
const SHORT: usize = 16;

/// Where a text's characters are kept.
#[derive(Drop)]
pub(crate) enum Characters {
    // in the value itself, with the memory in which more would be kept
    Short(Global, ArrayString<SHORT>),
    // in memory of their own
    Long(String),
}

impl Characters {
    ghost use Rattle.lex_base.specs.Texts.{utf8_of};

    fn as_str(&self) -> &str
        ensures { result.now ≡ utf8_of self.now }
    {
        match self {
            Characters::Short(_, text) => text.as_str(),
            Characters::Long(text) => text.as_str(),
        }
    }

    /// Adds characters after the others. The error leaves them as they were.
    fn push_str(&mut self, more: &str) -> Result<(), AllocError>
        ensures ok { OnOk result (chars (utf8_of self.new) ≡ chars (utf8_of self.old) ++ chars more.now) }
        ensures err { OnErr result (utf8_of self.new ≡ utf8_of self.old) }
    {
        match self {
            Characters::Short(alloc, text) => {
                let kept = text.as_str();
                if more.len() > SHORT - kept.len() {
                    *self = Characters::Long(joined(*alloc, kept, more)?);
                    return Ok(());
                }
                text.push_str(more);
                Ok(())
            }
            Characters::Long(text) => {
                text.push_str(more)?;
                Ok(())
            }
        }
    }
}

// two texts, one after the other
fn joined(alloc: Global, first: &str, second: &str) -> Result<String, AllocError>
    ensures { IfOk result (λ both. string_bytes both ≡ first.now ++ second.now) }
{
    let mut both = String::with_capacity(alloc, first.len().saturating_add(second.len()))?;
    both.push_str(first)?;
    both.push_str(second)?;
    Ok(both)
}

/// An owned text. Contracts see it as the list of its code points; equality, order and hashing are those of that list.
/// A short one takes no memory of its own.
pub struct Text {
    characters: Characters,
}

impl Drop for Text {
    // One call wherever a text is dropped.
    fn drop(self) {
        let Text { characters: _ } = self;
    }
}

impl Model for Text {
    ghost use Rattle.std.specs.Prelude.{List, ℕ, chars};
    ghost use Rattle.std.specs.Coded.{coded_ℕ, coded_list};
    ghost use Rattle.lex_base.specs.Texts.{utf8_of};

    ghost Value = { List ℕ };

    ghost coded = { coded_list coded_ℕ };

    ghost view = { λ t. chars (utf8_of t.characters) };
}

impl Text {
    /// A copy of a text. The error is allocation failure alone.
    pub fn from_str(alloc: Global, text: &str) -> Result<Text, AllocError>
        ensures { IfOk result (λ copy. copy ≡ chars text.now) }
    {
        let characters = match ArrayString::from(text) {
            Ok(short) => Characters::Short(alloc, short),
            Err(_) => Characters::Long(String::from_str(alloc, text)?),
        };
        Ok(Text { characters })
    }

    /// The text, lent.
    pub fn as_str(&self) -> &str
        ensures { chars result.now ≡ self.now }
    {
        self.characters.as_str()
    }

    /// The text as a `String`, which takes memory where the text is short. The error is allocation failure alone.
    pub fn into_string(self) -> Result<String, AllocError>
        ensures { IfOk result (λ string. chars (string_bytes string) ≡ self) }
    {
        let Text { characters } = self;
        match characters {
            Characters::Short(alloc, text) => String::from_str(alloc, text.as_str()),
            Characters::Long(text) => Ok(text),
        }
    }

    /// Adds characters after the others. The error is allocation failure alone, and leaves the text as it was.
    pub fn push_str(&mut self, more: &str) -> Result<(), AllocError>
        ensures ok { OnOk result (self.new ≡ self.old ++ chars more.now) }
        ensures err { OnErr result (self.new ≡ self.old) }
    {
        self.characters.push_str(more)
    }

    /// An equal text. The error is allocation failure alone.
    pub fn try_clone(&self) -> Result<Text, AllocError>
        ensures { IfOk result (λ copy. copy ≡ self.now) }
    {
        let characters = match &self.characters {
            Characters::Short(alloc, text) => Characters::Short(*alloc, *text),
            Characters::Long(text) => {
                Characters::Long(String::from_str(*text.allocator(), text.as_str())?)
            }
        };
        Ok(Text { characters })
    }
}

impl From<String> for Text {
    ghost from_gives = { λ s t. t ≡ chars (string_bytes s) };

    /// The text of a `String`. It takes no memory.
    fn from(text: String) -> Text {
        Text {
            characters: Characters::Long(text),
        }
    }
}

impl Debug for Text {
    fn fmt<W: Write>(&self, f: &mut Formatter<W>) -> Result<(), Error> {
        Debug::fmt(&self.as_str(), f)
    }
}

impl PartialEq for Text {
    ghost eq = { pointwise nat_eq };

    ghost laws = { Cmp.partial_equiv_from_equiv nat_list_eq_equiv };

    fn eq(&self, other: &Text) -> bool {
        self.as_str() == other.as_str()
    }
}

impl Eq for Text {
    ghost laws = { nat_list_eq_equiv };
}

impl PartialOrd for Text {
    ghost partial_cmp = { λ x y. Some (slice_cmp nat_cmp x y) };

    ghost laws = { texts_po };

    fn partial_cmp(&self, other: &Text) -> Option<Ordering> {
        Some(self.cmp(other))
    }
}

impl Ord for Text {
    ghost cmp = { slice_cmp nat_cmp };

    ghost total = { nat_list_cmp_total };

    ghost matches_partial_cmp = { λ x y. refl };

    ghost matches_eq = { texts_ties };

    // The order of UTF-8 is that of the code points.
    fn cmp(&self, other: &Text) -> Ordering {
        self.as_str().cmp(other.as_str())
    }
}

impl Hash for Text {
    ghost hash_input = { λ t. fed.str (encode_utf8_all t) };

    ghost respects_eq = { λ x y e. ap (λ t. fed.str (encode_utf8_all t)) (same_texts x y e) };

    fn hash<H: Hasher>(&self, state: &mut H) {
        self.as_str().hash(state);
    }
}
