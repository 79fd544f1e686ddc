ghost use Rattle.std.specs.Prelude.{◌≡◌, ◌++◌, ◌∷◌, [], IfOk, OnOk, OnErr, take};
ghost use Rattle.std.specs.Cmp.Lexicographic.{pointwise, lists_per, lists_equiv};

use crate::names::Attribute;
use std::alloc::{AllocError, Global};
use std::marker::Model;
use std::mem;
use std::rc::Rc;

/// So many attributes take no more room than they need.
const FEW: usize = 2;

/// The attributes of a tag, in their order. Contracts see a list. Copies of those that are shared take no memory.
pub struct Attributes {
    items: Items,
}

impl Drop for Attributes {
    // One call wherever attributes are dropped, shared or not.
    fn drop(self) {
        let Attributes { items } = self;
        drop(items);
    }
}

#[derive(Drop)]
enum Items {
    // of one list alone
    Owned(Vec<Attribute>),
    // the first of a vector, at most so many; other lists may have the vector too, which stays as it is
    Shared(Rc<Vec<Attribute>>, usize),
}

impl Model for Attributes {
    ghost use Rattle.std.specs.Prelude.{List};
    ghost use Rattle.html_lexemes.specs.Attributes.{listed};
    ghost use Rattle.html_lexemes.specs.declared.names.Attribute.{Attribute};

    ghost Value = { List Attribute };

    ghost view = { λ a. listed a.items };
}

impl Attributes {
    /// No attributes. It takes no memory.
    pub fn new(alloc: Global) -> Attributes
        ensures { result ≡ [] }
    {
        Attributes {
            items: Items::Owned(Vec::new(alloc)),
        }
    }

    /// The attributes, lent.
    pub fn as_slice(&self) -> &[Attribute]
        ensures { result.now ≡ self.now }
    {
        match &self.items {
            Items::Owned(items) => items.as_slice(),
            Items::Shared(items, count) => first_of(items.as_slice(), *count),
        }
    }

    /// Adds an attribute after the others. The error is allocation failure alone, and leaves the attributes as they
    /// were.
    pub fn push(&mut self, attribute: Attribute) -> Result<(), AllocError>
        ensures ok { OnOk result (self.new ≡ self.old ++ attribute ∷ []) }
        ensures err { OnErr result (self.new ≡ self.old) }
    {
        match &mut self.items {
            Items::Owned(items) => {
                if items.len() < FEW {
                    // most tags have one attribute or two, and their list may be shared by many elements
                    items.reserve_exact(1)?;
                }
                items.push(attribute)?;
                Ok(())
            }
            Items::Shared(items, count) => {
                // others see the vector too
                let mut copy = copied(*items.allocator(), first_of(items.as_slice(), *count))?;
                copy.push(attribute)?;
                self.items = Items::Owned(copy);
                Ok(())
            }
        }
    }

    /// Keeps the first attributes, at most this many.
    pub fn truncate(&mut self, count: usize)
        ensures { self.new ≡ take count self.old }
    {
        match &mut self.items {
            Items::Owned(items) => items.truncate(count),
            Items::Shared(_, kept) => *kept = count.min(*kept),
        }
    }

    /// Shares the attributes with the copies that are made of them from now on, which then take no memory, and no time
    /// in step with the list. The error is allocation failure alone; without attributes there is none.
    pub fn share(&mut self) -> Result<(), AllocError>
        ensures { self.new ≡ self.old }
    {
        let Items::Owned(items) = &mut self.items else {
            return Ok(());
        };
        let (alloc, count) = (*items.allocator(), items.len());
        if count == 0 {
            return Ok(());
        }
        match Rc::new(alloc, mem::replace(items, Vec::new(alloc))) {
            Ok(shared) => {
                self.items = Items::Shared(shared, count);
                Ok(())
            }
            Err(refused) => {
                self.items = Items::Owned(refused.value);
                Err(AllocError)
            }
        }
    }

    /// Equal attributes. The error is allocation failure alone.
    pub fn try_clone(&self) -> Result<Attributes, AllocError>
        ensures { IfOk result (λ copy. copy ≡ self.now) }
    {
        let items = match &self.items {
            Items::Owned(items) => Items::Owned(copied(*items.allocator(), items.as_slice())?),
            Items::Shared(items, count) => Items::Shared(items.clone()?, *count),
        };
        Ok(Attributes { items })
    }
}

// the first attributes, at most so many
fn first_of(items: &[Attribute], count: usize) -> &[Attribute]
    ensures { result.now ≡ take count items.now }
{
    &items[..count.min(items.len())]
}

// equal attributes
fn copied(alloc: Global, items: &[Attribute]) -> Result<Vec<Attribute>, AllocError>
    ensures { IfOk result (λ copy. copy.items ≡ items.now) }
{
    let mut copy = Vec::with_capacity(alloc, items.len())?;
    for attribute in items {
        copy.push(attribute.try_clone()?)?;
    }
    Ok(copy)
}

impl From<Vec<Attribute>> for Attributes {
    ghost from_gives = { λ v a. a ≡ v.items };

    /// The attributes of a `Vec`. It takes no memory.
    fn from(items: Vec<Attribute>) -> Attributes {
        Attributes {
            items: Items::Owned(items),
        }
    }
}

impl PartialEq for Attributes {
    ghost use Rattle.html_lexemes.specs.contracts.names.AttributePartialEq.TheImpl.Laws.{laws-law};

    ghost eq = { pointwise ⟦<Attribute as PartialEq>⟧.eq };

    ghost laws = { lists_per laws-law };

    fn eq(&self, other: &Attributes) -> bool {
        self.as_slice() == other.as_slice()
    }
}

impl Eq for Attributes {
    ghost use Rattle.html_lexemes.specs.contracts.names.AttributeEq.TheImpl.Laws.{laws-law};

    ghost laws = { lists_equiv laws-law };
}
