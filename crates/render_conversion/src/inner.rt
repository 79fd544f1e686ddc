//! What stands in an element's value.
ghost use Rattle.std.specs.Prelude.{◌≡◌, ◌++◌, OnOk};
ghost use Rattle.render_conversion.specs.Inner.{closing, has_closing, opening, place_of};
ghost use Rattle.render_values.specs.Arena.{flat};

use crate::contents::push_plain_text;
use crate::place::Place;
use render_values::RenderNode;
use std::alloc::{AllocError, Global};

/// What stands in an element's value.
#[derive(Clone, Copy, Debug, PartialEq, Eq)]
pub enum Inner {
    /// The values of its children, which stand at this place.
    Children(Place),
    /// Those of its children, in a row between quotation marks.
    Quoted,
    /// Those of its children, in a row between spaces.
    Spaced,
    /// Of a table its groups, and then those that come last.
    TableParts,
    /// Of a table its captions, and then a table of its other parts.
    Captioned,
}

impl Inner {
    /// Where the texts stand that rules put before and after children.
    pub(crate) fn place(self) -> Place
        ensures { result ≡ place_of self }
    {
        match self {
            Inner::Children(place) => place,
            Inner::Quoted => Place::Flow,
            Inner::Spaced => Place::Flow,
            Inner::TableParts => Place::Groups,
            Inner::Captioned => Place::Groups,
        }
    }

    /// Whether a text stands after all else in it.
    pub(crate) fn has_closing(self) -> bool
        ensures { result ≡ has_closing self }
    {
        match self {
            Inner::Children(_) => false,
            Inner::Quoted => true,
            Inner::Spaced => true,
            Inner::TableParts => false,
            Inner::Captioned => false,
        }
    }
}

/// The text before all else in it, where there is one. The error is allocation failure alone.
pub(crate) fn push_opening(
    alloc: Global,
    nodes: &mut Vec<RenderNode>,
    inner: Inner,
) -> Result<(), AllocError>
    ensures { OnOk result (nodes.new.items ≡ nodes.old.items ++ flat (opening inner)) }
{
    match inner {
        Inner::Children(_) => Ok(()),
        Inner::Quoted => push_plain_text(alloc, nodes, "\u{201C}"),
        Inner::Spaced => push_plain_text(alloc, nodes, " "),
        Inner::TableParts => Ok(()),
        Inner::Captioned => Ok(()),
    }
}

/// The text after all else in it, where there is one. The error is allocation failure alone.
pub(crate) fn push_closing(
    alloc: Global,
    nodes: &mut Vec<RenderNode>,
    inner: Inner,
) -> Result<(), AllocError>
    ensures { OnOk result (nodes.new.items ≡ nodes.old.items ++ flat (closing inner)) }
{
    match inner {
        Inner::Children(_) => Ok(()),
        Inner::Quoted => push_plain_text(alloc, nodes, "\u{201D}"),
        Inner::Spaced => push_plain_text(alloc, nodes, " "),
        Inner::TableParts => Ok(()),
        Inner::Captioned => Ok(()),
    }
}
