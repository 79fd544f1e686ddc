ghost use Rattle.std.specs.Prelude.{◌≡◌, ◌⊎◌, ◌↔◌, Err, IfErr, IfOk, IsTrue, List, MatchOption, Ok, OnErr, OnOk, Some};
ghost use Rattle.std.specs.Prelude.{chars, length, map, option_map, string_bytes, ℕ};
ghost use Rattle.std.specs.Ordering.{nat_cmp};
ghost use Rattle.std.specs.Cmp.Lexicographic.{slice_cmp};
ghost use Rattle.std.specs.List.Sorted.{IsBinarySearchResult, IsSearchInRange};
ghost use Rattle.std.specs.FinMap as finite;
ghost use Rattle.lex_base.specs.References.{basic, checked, is_name, is_value, table_of_pairs};
ghost use Rattle.lex_base.specs.Lookup.{HasNameBeginning, HasLongerName, BeginsWithNoName, IsLongestName};

use crate::table_error::TableError;
use crate::text::Text;
use std::alloc::{AllocError, Global};
use std::marker::Model;

/// A named character reference, without its `&`, and what it stands for.
#[derive(Drop)]
struct Reference {
    name: String,
    value: String,
}

/// The named character references that a page may use (WHATWG HTML, 13.5), each a name and one or two
/// characters other than NUL. A name is ASCII letters and digits, at least one, with a semicolon only
/// last. Contracts see a finite map from names to values, both as lists of code points.
pub struct ReferenceTable {
    // in the order of the names, each once
    references: Vec<Reference>,
}

impl Drop for ReferenceTable {
    // One call wherever a table is dropped.
    fn drop(self) {
        let ReferenceTable { references: _ } = self;
    }
}

impl Reference {
    ghost use Rattle.lex_base.specs.Table.{reference_of};

    // an equal one
    fn try_clone(&self) -> Result<Reference, AllocError>
        ensures { IfOk result (λ copy. reference_of copy ≡ reference_of self.now) }
    {
        Ok(Reference {
            name: String::from_str(*self.name.allocator(), self.name.as_str())?,
            value: String::from_str(*self.value.allocator(), self.value.as_str())?,
        })
    }
}

impl Model for ReferenceTable {
    ghost use Rattle.lex_base.specs.References.{References, references_code};

    ghost Value = { References };

    ghost coded = { references_code };

    ghost use Rattle.lex_base.specs.Table.{table_of, AreTable};

    ghost view = { λ t. table_of t.references.items };

    ghost invariant = { λ t. AreTable t.references.items };
}

/// A name of a table that a text begins with, and what it stands for.
#[derive(Clone, Copy)]
pub struct NamedReference<'t> {
    /// The name, without its `&`.
    pub name: &'t str,
    /// One or two characters.
    pub value: &'t str,
}

impl ReferenceTable {
    ghost use Rattle.lex_base.specs.Table.{pair_of};

    /// The table of some pairs of a name and a value. Where a name stands twice its last value stays. The
    /// first faulty pair is answered as `BadName` or else `BadCodePoints`, with its name; or `Memory`.
    pub fn new(alloc: Global, pairs: &[(&str, &str)]) -> Result<ReferenceTable, TableError>
        ensures ok { IfOk result (λ table. table_of_pairs (map pair_of pairs.now) ≡ Ok table) }
        ensures err { IfErr result (λ e. (e ≡ TableError.Memory) ⊎ (table_of_pairs (map pair_of pairs.now) ≡ Err e)) }
    {
        let mut table = ReferenceTable::empty(alloc);
        for (name, value) in pairs {
            check(alloc, name, value)?;
            table.insert(name, value)?;
        }
        Ok(table)
    }

    /// The table of `amp;`, `lt;`, `gt;`, `quot;` and `nbsp;`. The error is allocation failure alone.
    pub fn basic(alloc: Global) -> Result<ReferenceTable, AllocError>
        ensures { IfOk result (λ table. table ≡ basic) }
    {
        let mut table = ReferenceTable::empty(alloc);
        table.insert("amp;", "&")?;
        table.insert("lt;", "<")?;
        table.insert("gt;", ">")?;
        table.insert("quot;", "\"")?;
        table.insert("nbsp;", "\u{a0}")?;
        Ok(table)
    }

    // the table without a name
    pub(crate) fn empty(alloc: Global) -> ReferenceTable
        ensures { result ≡ finite.empty }
    {
        ReferenceTable {
            references: Vec::new(alloc),
        }
    }

    // Gives a name its value. The error leaves the table as it was.
    pub(crate) fn insert(&mut self, name: &str, value: &str) -> Result<(), AllocError>
        requires name { IsTrue (is_name (chars name.now)) }
        requires value { IsTrue (is_value (chars value.now)) }
        ensures ok { OnOk result (self.new ≡ finite.insert self.old (chars name.now) (chars value.now)) }
        ensures err { OnErr result (self.new ≡ self.old) }
    {
        let alloc = *self.references.allocator();
        match place_of(self.references.as_slice(), name) {
            Ok(at) => {
                let value = String::from_str(alloc, value)?;
                self.references[at].value = value;
                Ok(())
            }
            Err(at) => {
                let name = String::from_str(alloc, name)?;
                let value = String::from_str(alloc, value)?;
                self.references.insert(at, Reference { name, value })?;
                Ok(())
            }
        }
    }

    /// An equal table: one configuration reads many pages. The error is allocation failure alone.
    pub fn try_clone(&self) -> Result<ReferenceTable, AllocError>
        ensures { IfOk result (λ copy. copy ≡ self.now) }
    {
        let alloc = *self.references.allocator();
        let mut references = Vec::with_capacity(alloc, self.references.len())?;
        'references: for reference in &self.references {
            references.push(reference.try_clone()?)?;
        }
        Ok(ReferenceTable { references })
    }

    /// What a name stands for, and `None` for a text that is no name of the table.
    pub fn value(&self, name: &str) -> Option<&str>
        ensures { option_map (λ v. chars v.now) result ≡ finite.get self.now (chars name.now) }
    {
        match place_of(self.references.as_slice(), name) {
            Ok(at) => Some(self.references[at].value.as_str()),
            Err(_) => None,
        }
    }

    /// Whether some name of the table begins with a text: it is that name, or more characters may make a
    /// name of it.
    pub fn has_name_beginning(&self, text: &str) -> bool
        ensures { IsTrue result ↔ HasNameBeginning self.now (chars text.now) }
    {
        let references = self.references.as_slice();
        let at = match place_of(references, text) {
            Ok(at) | Err(at) => at,
        };
        match references.get(at) {
            Some(reference) => reference.name.as_str().starts_with(text),
            None => false,
        }
    }

    /// Whether some name of the table begins with a text and is longer.
    pub fn has_longer_name(&self, text: &str) -> bool
        ensures { IsTrue result ↔ HasLongerName self.now (chars text.now) }
    {
        let references = self.references.as_slice();
        let trailing = match place_of(references, text) {
            Ok(at) => at + 1,
            Err(at) => at,
        };
        let Some(longer) = references.get(trailing) else {
            return false;
        };
        longer.name.as_str().starts_with(text)
    }

    /// A law, and no code: each name of a table is ASCII letters and digits, at least one, with a semicolon
    /// only last, and stands for one or two characters other than NUL.
    pub fn names_are_names(&self)
        ensures { (name value : List ℕ) → finite.get self.now name ≡ Some value
            → IsTrue (is_name name) × IsTrue (is_value value) }
    {
        let _ = &self.references;
    }

    /// The longest name of the table that a text begins with (WHATWG HTML, 13.2.5.73). It looks at no more
    /// of the text than the longest name has, and at one character.
    pub fn longest_name<'t>(&'t self, text: &'t str) -> Option<NamedReference<'t>>
        ensures { MatchOption result (BeginsWithNoName self.now (chars text.now))
            (λ r. IsLongestName self.now (chars text.now) (chars r.name.now) (chars r.value.now)) }
    {
        // no name is empty
        self.names_are_names();
        let mut longest = None;
        let mut length = 0;
        for c in text.chars() {
            length += c.len_utf8();
            let (front, _) = text.split_at(length);
            let Some(named) = self.begun(front) else {
                break;
            };
            longest = named.or(longest);
        }
        longest
    }

    // The name that a text is, where some name begins with it: else `None`.
    fn begun<'t>(&'t self, text: &'t str) -> Option<Option<NamedReference<'t>>>
        ensures { MatchOption result (HasNameBeginning self.now (chars text.now) → ⊥)
            (λ named. MatchOption named (finite.get self.now (chars text.now) ≡ None)
            (λ r. (r.name.now ≡ text.now) × (finite.get self.now (chars text.now) ≡ Some (chars r.value.now)))) }
    {
        let references = self.references.as_slice();
        let at = match place_of(references, text) {
            Ok(found) => {
                let value = references[found].value.as_str();
                return Some(Some(NamedReference { name: text, value }));
            }
            Err(at) => at,
        };
        let Some(reference) = references.get(at) else {
            return None;
        };
        if reference.name.as_str().starts_with(text) {
            return Some(None);
        }
        None
    }
}

// where a name stands, or where it would
fn place_of(references: &[Reference], name: &str) -> Result<usize, usize>
    ensures bound { IsSearchInRange result (length references.now) }
    ensures position { IsBinarySearchResult (λ r. slice_cmp nat_cmp (chars (string_bytes r.name))
        (chars name.now)) references.now
        result }
{
    references.binary_search_by(|r| r.name.as_str().cmp(name))
}

// Answers what is wrong with a name and its value.
fn check(alloc: Global, name: &str, value: &str) -> Result<(), TableError>
    ensures ok { OnOk result (checked (chars name.now, chars value.now) ≡ Ok (chars name.now, chars value.now)) }
    ensures err { IfErr result (λ e. (e ≡ TableError.Memory) ⊎ (checked (chars name.now, chars value.now) ≡ Err e)) }
{
    if !is_name(name) {
        return Err(TableError::BadName(Text::from_str(alloc, name)?));
    }
    if !is_value(value) {
        return Err(TableError::BadCodePoints(Text::from_str(alloc, name)?));
    }
    Ok(())
}

/// Whether a text is a name of a reference: ASCII letters and digits, at least one, with a semicolon only
/// last.
pub(crate) fn is_name(text: &str) -> bool
    ensures { result ≡ is_name (chars text.now) }
{
    let word = text.strip_suffix(';').unwrap_or(text);
    !word.is_empty() && word.chars().all(|c| c.is_ascii_alphanumeric())
}

/// Whether a text is one or two characters other than NUL.
pub(crate) fn is_value(text: &str) -> bool
    ensures { result ≡ is_value (chars text.now) }
{
    let mut characters = text.chars();
    match (characters.next(), characters.next(), characters.next()) {
        (Some(c), None, None) => c != '\0',
        (Some(c), Some(d), None) => c != '\0' && d != '\0',
        _ => false,
    }
}
