//! What a node is, and the names of the attributes of an element that was given some.
ghost use Rattle.std.specs.Prelude.{◌≡◌, true, false, IfOk, OnErr, OnOk, chars, is_some};
ghost use Rattle.tree_forest.specs.Changes.{kind_with, saying_kind};
ghost use Rattle.tree_forest.specs.Forest.{text_of};
ghost use Rattle.html_render_dom.specs.Nodes.{kind_of};

use crate::names::add_missing;
use crate::node::NodeData;
use html_lexemes::{Attributes, QualName};
use std::alloc::{AllocError, Global};
use std::collections::HashSet;
use std::marker::Model;

/// What a node is. An element that was given attributes keeps the names of all that it has in a set, so that the next
/// ones are not compared with each.
#[derive(Drop)]
pub(crate) struct Content {
    data: NodeData,
    names: Option<Box<HashSet<QualName>>>,
}

impl Model for Content {
    ghost use Rattle.std.specs.Option.{ForSome};
    ghost use Rattle.html_render_dom.specs.Names.{HasNames, attributes_in};
    ghost use Rattle.html_render_dom.specs.declared.node.NodeData.{NodeData};

    ghost Value = { NodeData };

    ghost view = { λ c. c.data };

    ghost invariant = { λ c. ForSome c.names (λ set. HasNames set.value (attributes_in c.data)) };
}

impl Content {
    pub(crate) fn new(node: NodeData) -> Content
        ensures { result ≡ node }
    {
        Content {
            data: node,
            names: None,
        }
    }

    pub(crate) fn data(&self) -> &NodeData
        ensures { result.now ≡ self.now }
    {
        &self.data
    }

    /// Adds characters to a text, and says whether it is one; else nothing changes.
    pub(crate) fn say(&mut self, words: &str) -> Result<bool, AllocError>
        ensures said { IfOk result (λ is. is ≡ true
            → kind_of self.new ≡ saying_kind (chars words.now) (kind_of self.old)) }
        ensures is_text { IfOk result (λ is. is ≡ is_some (text_of (kind_of self.old))) }
        ensures other { IfOk result (λ is. is ≡ false → self.new ≡ self.old) }
        ensures kept { OnErr result (self.new ≡ self.old) }
    {
        match &mut self.data {
            NodeData::Text { contents } => {
                contents.push_str(words)?;
                Ok(true)
            }
            _ => Ok(false),
        }
    }

    /// Adds the attributes whose names an element lacks; another node has none.
    pub(crate) fn add_attributes(
        &mut self,
        alloc: Global,
        more: Attributes,
    ) -> Result<(), AllocError>
        ensures added { OnOk result (kind_of self.new ≡ kind_with more (kind_of self.old)) }
        ensures kept { OnErr result (self.new ≡ self.old) }
    {
        match &mut self.data {
            NodeData::Element { attrs, .. } => add_missing(alloc, attrs, &mut self.names, more),
            _ => Ok(()),
        }
    }
}
