//! Attributes whose names an element lacks.
ghost use Rattle.std.specs.Prelude.{◌≡◌, ◌∷◌, ◌++◌, [], List, IfOk, OnErr, OnOk, if◌then◌else◌};
ghost use Rattle.std.specs.Option.{ForSome};
ghost use Rattle.tree_forest.specs.Changes.{has_name, with_missing};
ghost use Rattle.html_lexemes.specs.declared.names.Attribute.{Attribute as SeenAttribute};
ghost use Rattle.html_render_dom.specs.Names.{HasNames};

use html_lexemes::laws::equal_names_are_the_same;
use html_lexemes::{Attribute, Attributes, QualName};
use std::alloc::{AllocError, Global};
use std::collections::HashSet;

/// Adds the attributes whose names are missing, in order; where memory is wanting, none. A set, once there is one, has
/// the names of all.
pub(crate) fn add_missing(
    alloc: Global,
    held: &mut Attributes,
    names: &mut Option<Box<HashSet<QualName>>>,
    more: Attributes,
) -> Result<(), AllocError>
    requires { ForSome names.old (λ set. HasNames set.value held.old) }
    ensures ok { OnOk result (held.new ≡ with_missing held.old more) }
    ensures err { OnErr result (held.new ≡ held.old) }
    ensures names { ForSome names.new (λ set. HasNames set.value held.new) }
{
    let known = match names.take() {
        Some(known) => known,
        None => names_of(alloc, held.as_slice())?,
    };
    let count = held.as_slice().len();
    match push_missing(held, known, more) {
        Ok(known) => {
            *names = Some(known);
            Ok(())
        }
        Err(error) => {
            held.truncate(count);
            Err(error)
        }
    }
}

// the names of attributes
fn names_of(alloc: Global, attributes: &[Attribute]) -> Result<Box<HashSet<QualName>>, AllocError>
    ensures { IfOk result (λ set. HasNames set.value attributes.now) }
{
    equal_names_are_the_same();
    let mut names = HashSet::new(alloc);
    for attribute in attributes {
        names.insert(attribute.name.try_clone()?)?;
    }
    Ok(Box::new(alloc, names)?)
}

// adds the attributes whose names are missing, in order; where memory is wanting, some may be added
fn push_missing(
    held: &mut Attributes,
    mut known: Box<HashSet<QualName>>,
    more: Attributes,
) -> Result<Box<HashSet<QualName>>, AllocError>
    requires { HasNames known.value held.old }
    ensures ok { OnOk result (held.new ≡ with_missing held.old more) }
    ensures known { IfOk result (λ set. HasNames set.value held.new) }
    ensures err { OnErr result ((some : List SeenAttribute) × (held.new ≡ held.old ++ some)) }
{
    for attribute in more.as_slice() {
        add_one(held, &mut known, attribute)?;
    }
    Ok(known)
}

// adds a copy of an attribute, unless its name is there
fn add_one(
    held: &mut Attributes,
    known: &mut HashSet<QualName>,
    attribute: &Attribute,
) -> Result<(), AllocError>
    requires { HasNames known.old held.old }
    ensures ok { OnOk result (held.new
        ≡ (if has_name attribute.now.name held.old then held.old else held.old ++ attribute.now ∷ [])) }
    ensures known { OnOk result (HasNames known.new held.new) }
    ensures err { OnErr result (held.new ≡ held.old) }
{
    equal_names_are_the_same();
    if known.contains(&attribute.name) {
        return Ok(());
    }
    known.insert(attribute.name.try_clone()?)?;
    held.push(attribute.try_clone()?)?;
    Ok(())
}
