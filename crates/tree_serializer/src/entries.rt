//! The open entries of a serializer that writes.
ghost use Rattle.std.specs.Prelude.{◌≡◌, ◌≢◌, ◌∷◌, [], true, None, IfErr, IfOk, OnErr, OnOk, Err, if◌then◌else◌};
ghost use Rattle.tree_serializer.specs.Entries.{IsClosed, IsOpened, IsWithin, entries_of, entry_of, is_silent_in};
ghost use Rattle.tree_serializer.specs.Entries.{name_in, parent_in};
ghost use Rattle.tree_serializer.specs.Openings.{opening_entry};
ghost use Rattle.tree_serializer.specs.Walks.{is_raw};
ghost use Rattle.tree_names.specs.ElementSets.{void_elements};
ghost use Rattle.tree_names.specs.Sets.{is_element_of};

use crate::fault::SerializeFault;
use crate::options::TraversalScope;
use html_lexemes::QualName;
use std::alloc::Global;
use tree_names::{has_raw_text, is_html, is_void};

// an open entry: the element's name, where it has one; where it is silent, nothing is written within it
#[derive(Drop)]
pub(crate) struct OpenEntry {
    pub(crate) name: Option<QualName>,
    pub(crate) is_silent: bool,
}

// the entry that is open at first
pub(crate) fn opening_entry(scope: TraversalScope) -> OpenEntry
    ensures { entry_of result ≡ opening_entry scope }
{
    match scope {
        TraversalScope::IncludeNode => OpenEntry {
            name: None,
            is_silent: false,
        },
        TraversalScope::ChildrenOnly(name) => OpenEntry {
            name,
            is_silent: false,
        },
    }
}

// one entry alone
pub(crate) fn entry_alone(alloc: Global, entry: OpenEntry) -> Result<Vec<OpenEntry>, SerializeFault>
    ensures ok { IfOk result (λ entries. entries_of entries.items ≡ entry_of entry ∷ []) }
    ensures memory { IfErr result (λ fault. fault ≡ SerializeFault.Memory) }
{
    let mut entries = Vec::new(alloc);
    entries.push(entry)?;
    Ok(entries)
}

// whether nothing is written
pub(crate) fn is_silent(entries: &[OpenEntry]) -> bool
    ensures { result ≡ is_silent_in (entries_of entries.now) }
{
    match entries.last() {
        Some(entry) => entry.is_silent,
        None => false,
    }
}

// whether text is written as it is
pub(crate) fn keeps_text(entries: &[OpenEntry], scripting: bool) -> bool
    ensures { result ≡ is_raw scripting (name_in (entries_of entries.now)) }
{
    let Some(entry) = entries.last() else {
        return false;
    };
    let Some(name) = &entry.name else {
        return false;
    };
    has_raw_text(name) || (scripting && is_html(name, "noscript"))
}

// makes up an entry where none is open
pub(crate) fn find_parent(
    entries: &mut Vec<OpenEntry>,
    makes_parents: bool,
) -> Result<(), SerializeFault>
    ensures ok { OnOk result
        (IsWithin makes_parents (entries_of entries.old.items) (entries_of entries.new.items)) }
    ensures err { OnErr result (entries_of entries.new.items ≡ entries_of entries.old.items) }
    ensures none { result ≡ Err SerializeFault.NoParent →
        parent_in makes_parents (entries_of entries.old.items) ≡ None }
    ensures kinds { result ≢ Err SerializeFault.Write }
{
    if !entries.as_slice().is_empty() {
        return Ok(());
    }
    if !makes_parents {
        return Err(SerializeFault::NoParent);
    }
    entries.push(OpenEntry {
        name: None,
        is_silent: false,
    })?;
    Ok(())
}

// whether nothing is written within an element whose parent is silent, or not
fn is_silent_within(in_silence: bool, name: &QualName) -> bool
    ensures { result ≡ (if in_silence then true else is_element_of void_elements name.now) }
{
    in_silence || is_void(name)
}

// opens an element, and says whether its parent is silent
pub(crate) fn open_entry(
    entries: &mut Vec<OpenEntry>,
    makes_parents: bool,
    name: &QualName,
) -> Result<bool, SerializeFault>
    ensures ok { IfOk result (λ is_silent. IsOpened makes_parents name.now (entries_of entries.old.items) is_silent
        (entries_of entries.new.items)) }
    ensures err { OnErr result (entries_of entries.new.items ≡ entries_of entries.old.items) }
    ensures none { result ≡ Err SerializeFault.NoParent →
        parent_in makes_parents (entries_of entries.old.items) ≡ None }
    ensures kinds { result ≢ Err SerializeFault.Write }
{
    let copy = name.try_clone()?;
    let count = entries.len();
    find_parent(entries, makes_parents)?;
    let in_silence = is_silent(entries.as_slice());
    let entry = OpenEntry {
        name: Some(copy),
        is_silent: is_silent_within(in_silence, name),
    };
    if entries.push(entry).is_err() {
        entries.truncate(count);
        return Err(SerializeFault::Memory);
    }
    Ok(in_silence)
}

// closes the innermost entry, and says whether it is silent
pub(crate) fn close_entry(
    entries: &mut Vec<OpenEntry>,
    makes_parents: bool,
) -> Result<bool, SerializeFault>
    ensures ok { IfOk result (λ is_silent. IsClosed makes_parents (entries_of entries.old.items) is_silent
        (entries_of entries.new.items)) }
    ensures err { OnErr result (entries_of entries.new.items ≡ entries_of entries.old.items) }
    ensures none { result ≡ Err SerializeFault.NoParent →
        parent_in makes_parents (entries_of entries.old.items) ≡ None }
    ensures no_write { result ≢ Err SerializeFault.Write }
    ensures no_memory { result ≢ Err SerializeFault.Memory }
{
    match entries.pop() {
        Some(entry) => Ok(entry.is_silent),
        None if makes_parents => Ok(false),
        None => Err(SerializeFault::NoParent),
    }
}
