ghost use Rattle.std.specs.Prelude.{◌≡◌, IfOk, chars, encode_utf8_all, Some};
ghost use Rattle.std.specs.Ordering.{nat_cmp};
ghost use Rattle.std.specs.Cmp.Lexicographic.{nat_list_cmp_total, nat_list_eq_equiv, pointwise, slice_cmp, texts_po};
ghost use Rattle.std.specs.Cmp.Lexicographic.{texts_ties};
ghost use Rattle.std.specs.Cmp as Cmp;
ghost use Rattle.std.specs.Bool.{nat_eq};
ghost use Rattle.std.proofs.Common.{refl, ap};
ghost use Rattle.lex_base.specs.Texts.{same_texts};
ghost use Rattle.std.specs.Hash as fed;
ghost use Rattle.lex_base.specs.Known.{known_at, known_text};

use lex_base::{KnownName, Text, known_of};
use std::alloc::{AllocError, Global};
use std::cmp::Ordering;
use std::hash::{Hash, Hasher};
use std::marker::Model;

/// The local name of an element or an attribute (WHATWG DOM, 1.4). Contracts see the list of its code
/// points; equality, order and hashing are those of that list.
pub struct LocalName {
    name: Name,
}

impl Drop for LocalName {
    // One call wherever a name is dropped, known or not.
    fn drop(self) {
        let LocalName { name } = self;
        drop(name);
    }
}

// A name that is known takes no memory; of another the text is held.
#[derive(Drop)]
enum Name {
    Known(KnownName),
    Other(Text),
}

impl Model for LocalName {
    ghost use Rattle.std.specs.Prelude.{◌≡◌, List, ℕ};
    ghost use Rattle.std.proofs.Common.{ap};
    ghost use Rattle.std.specs.Coded.{coded_ℕ, coded_list};
    ghost use Rattle.html_lexemes.specs.Names.{name_of, name_text};

    ghost Value = { List ℕ };

    ghost coded = { coded_list coded_ℕ };

    ghost view = { λ n. name_text n.name };

    ghost invariant = { λ n. name_of (name_text n.name) ≡ n.name };

    ghost inverse = { λ text. record { name = name_of text } };

    ghost inverse_ok = { λ a h. ap (λ n. record { name = n }) h };
}

impl LocalName {
    /// A name, copied. The error is allocation failure alone.
    pub fn from_str(alloc: Global, name: &str) -> Result<LocalName, AllocError>
        ensures { IfOk result (λ copy. copy ≡ chars name.now) }
    {
        match known_of(name) {
            Some(known) => Ok(LocalName::from_known(known)),
            None => {
                let text = Text::from_str(alloc, name)?;
                Ok(LocalName {
                    name: Name::Other(text),
                })
            }
        }
    }

    /// The name, lent.
    pub fn as_str(&self) -> &str
        ensures { chars result.now ≡ self.now }
    {
        match &self.name {
            Name::Known(known) => known.as_str(),
            Name::Other(text) => text.as_str(),
        }
    }

    /// A known name. It takes no memory.
    pub fn from_known(known: KnownName) -> LocalName
        ensures { result ≡ known_text known }
    {
        LocalName {
            name: Name::Known(known),
        }
    }

    /// The known name that it is.
    pub fn known(&self) -> Option<KnownName>
        ensures { result ≡ known_at self.now }
    {
        match &self.name {
            Name::Known(known) => Some(*known),
            Name::Other(_) => None,
        }
    }

    /// An equal name. The error is allocation failure alone.
    pub fn try_clone(&self) -> Result<LocalName, AllocError>
        ensures { IfOk result (λ copy. copy ≡ self.now) }
    {
        match &self.name {
            Name::Known(known) => Ok(LocalName {
                name: Name::Known(*known),
            }),
            Name::Other(text) => {
                let copy = text.try_clone()?;
                Ok(LocalName {
                    name: Name::Other(copy),
                })
            }
        }
    }
}

impl From<Text> for LocalName {
    ghost from_gives = { λ text name. name ≡ text };

    /// The name that a text is. It takes no memory.
    fn from(name: Text) -> LocalName {
        match known_of(name.as_str()) {
            Some(known) => LocalName::from_known(known),
            None => LocalName {
                name: Name::Other(name),
            },
        }
    }
}

impl PartialEq for LocalName {
    ghost eq = { pointwise nat_eq };

    ghost laws = { Cmp.partial_equiv_from_equiv nat_list_eq_equiv };

    fn eq(&self, other: &LocalName) -> bool {
        match &self.name {
            Name::Known(known) => match &other.name {
                Name::Known(another) => *known == *another,
                Name::Other(_) => false,
            },
            Name::Other(text) => match &other.name {
                Name::Known(_) => false,
                Name::Other(another) => *text == *another,
            },
        }
    }
}

impl Eq for LocalName {
    ghost laws = { nat_list_eq_equiv };
}

impl PartialOrd for LocalName {
    ghost partial_cmp = { λ x y. Some (slice_cmp nat_cmp x y) };

    ghost laws = { texts_po };

    fn partial_cmp(&self, other: &LocalName) -> Option<Ordering> {
        Some(self.cmp(other))
    }
}

impl Ord for LocalName {
    ghost cmp = { slice_cmp nat_cmp };

    ghost total = { nat_list_cmp_total };

    ghost matches_partial_cmp = { λ x y. refl };

    ghost matches_eq = { texts_ties };

    fn cmp(&self, other: &LocalName) -> Ordering {
        self.as_str().cmp(other.as_str())
    }
}

impl Hash for LocalName {
    ghost hash_input = { λ t. fed.str (encode_utf8_all t) };

    ghost respects_eq = { λ x y e. ap (λ t. fed.str (encode_utf8_all t)) (same_texts x y e) };

    fn hash<H: Hasher>(&self, state: &mut H) {
        self.as_str().hash(state);
    }
}

/// The namespace of an element or an attribute (WHATWG Infra, 8).
#[derive(Drop, PartialEq, Eq, PartialOrd, Ord, Hash)]
pub enum Namespace {
    /// `http://www.w3.org/1999/xhtml`.
    Html,
    /// `http://www.w3.org/1998/Math/MathML`.
    MathMl,
    /// `http://www.w3.org/2000/svg`.
    Svg,
    /// Any other: its text, empty for the namespace of most attributes.
    Other(Text),
}

impl Namespace {
    /// An equal namespace. The error is allocation failure alone.
    pub fn try_clone(&self) -> Result<Namespace, AllocError>
        ensures { IfOk result (λ copy. copy ≡ self.now) }
    {
        match self {
            Namespace::Html => Ok(Namespace::Html),
            Namespace::MathMl => Ok(Namespace::MathMl),
            Namespace::Svg => Ok(Namespace::Svg),
            Namespace::Other(text) => Ok(Namespace::Other(text.try_clone()?)),
        }
    }
}

/// A name in its namespace.
#[derive(Drop, PartialEq, Eq, PartialOrd, Ord, Hash)]
pub struct QualName {
    /// The namespace.
    pub ns: Namespace,
    /// The name in it.
    pub local: LocalName,
}

impl QualName {
    /// A name in a namespace.
    pub fn new(ns: Namespace, local: LocalName) -> QualName
        ensures { result ≡ record { ns = ns; local = local } }
    {
        QualName { ns, local }
    }

    /// An equal name. The error is allocation failure alone.
    pub fn try_clone(&self) -> Result<QualName, AllocError>
        ensures { IfOk result (λ copy. copy ≡ self.now) }
    {
        Ok(QualName {
            ns: self.ns.try_clone()?,
            local: self.local.try_clone()?,
        })
    }
}

/// An attribute of a tag: its name and its value, with character references read.
#[derive(Drop, PartialEq, Eq, PartialOrd, Ord, Hash)]
pub struct Attribute {
    /// The name, of which a tag has each once.
    pub name: QualName,
    /// The value, empty where none was given.
    pub value: Text,
}

impl Attribute {
    /// An equal attribute. The error is allocation failure alone.
    pub fn try_clone(&self) -> Result<Attribute, AllocError>
        ensures { IfOk result (λ copy. copy ≡ self.now) }
    {
        Ok(Attribute {
            name: self.name.try_clone()?,
            value: self.value.try_clone()?,
        })
    }
}
