//! Comments, doctypes, attributes and the quirks mode (WHATWG HTML, 13.2.6.1 and 13.2.6.4.1).
ghost use Rattle.std.specs.Prelude.{◌≡◌, IfErr, OnOk};
ghost use Rattle.tree_forest.specs.Conditions.{IsPlace};
ghost use Rattle.tree_forest.specs.Forest.{IsElement};
ghost use Rattle.tree_forest.specs.Orders.{IsForest};
ghost use Rattle.tree_forest.specs.Places.{below};
ghost use Rattle.html_lexemes.specs.declared.fault.ParseFault.TheVariants.{Memory};
ghost use Rattle.tree_model.specs.Building.{seen};
ghost use Rattle.tree_model.specs.Insertions.{commented_at, here, root_of, with_attributes_of, with_doctype_of};
ghost use Rattle.tree_model.specs.Points.{place_of};
ghost use Rattle.tree_model.specs.Sound.{Sound};

use crate::construction::Construction;
use html_lexemes::{Attributes, Doctype, ParseFault, Text};
use tree_forest::{NodeOrText, QuirksMode, TreeSink};
use tree_model::{InsertionPoint, first_element, laws_of_forests};

impl<S: TreeSink> Construction<S> {
    /// Inserts a comment at the appropriate place ("insert a comment").
    pub fn append_comment(&mut self, text: Text) -> Result<(), ParseFault>
        requires { Sound (seen S.view self.old.held self.old.sink) }
        ensures seen { OnOk result (seen S.view self.new.held self.new.sink ≡ commented_at
            (here (seen S.view self.old.held self.old.sink)) text (seen S.view self.old.held self.old.sink)) }
        ensures sound { OnOk result (Sound (seen S.view self.new.held self.new.sink)) }
        ensures forest { IsForest (S.view.forest self.new.sink) }
        ensures memory { IfErr result (λ e. e ≡ Memory) }
    {
        let point = self.insertion_point();
        self.append_comment_at(point, text)
    }

    /// Inserts a comment after the children of the document.
    pub fn append_comment_to_document(&mut self, text: Text) -> Result<(), ParseFault>
        requires { Sound (seen S.view self.old.held self.old.sink) }
        ensures seen { OnOk result (seen S.view self.new.held self.new.sink ≡ commented_at (below 0) text
            (seen S.view self.old.held self.old.sink)) }
        ensures sound { OnOk result (Sound (seen S.view self.new.held self.new.sink)) }
        ensures forest { IsForest (S.view.forest self.new.sink) }
        ensures memory { IfErr result (λ e. e ≡ Memory) }
    {
        let point = InsertionPoint::LastChild(self.sink.get_document());
        self.append_comment_at(point, text)
    }

    /// Inserts a comment after the children of the root, or of the document where nothing is open.
    pub fn append_comment_to_html(&mut self, text: Text) -> Result<(), ParseFault>
        requires { Sound (seen S.view self.old.held self.old.sink) }
        ensures seen { OnOk result (seen S.view self.new.held self.new.sink ≡ commented_at
            (below (root_of (seen S.view self.old.held self.old.sink).stack)) text (seen S.view self.old.held
            self.old.sink)) }
        ensures sound { OnOk result (Sound (seen S.view self.new.held self.new.sink)) }
        ensures forest { IsForest (S.view.forest self.new.sink) }
        ensures memory { IfErr result (λ e. e ≡ Memory) }
    {
        let point = self.root_point();
        self.append_comment_at(point, text)
    }

    /// Puts a doctype after the children of the document. What it doesn't name is the empty text.
    pub fn append_doctype_to_document(&mut self, doctype: Doctype) -> Result<(), ParseFault>
        requires { Sound (seen S.view self.old.held self.old.sink) }
        ensures seen { OnOk result (seen S.view self.new.held self.new.sink ≡ with_doctype_of doctype
            (seen S.view self.old.held self.old.sink)) }
        ensures sound { OnOk result (Sound (seen S.view self.new.held self.new.sink)) }
        ensures forest { IsForest (S.view.forest self.new.sink) }
        ensures memory { IfErr result (λ e. e ≡ Memory) }
    {
        laws_of_forests();
        let alloc = self.held.alloc();
        let name = doctype.name.unwrap_or(Text::from(String::new(alloc)));
        let public_id = doctype.public_id.unwrap_or(Text::from(String::new(alloc)));
        let system_id = doctype.system_id.unwrap_or(Text::from(String::new(alloc)));
        self.sink
            .append_doctype_to_document(name, public_id, system_id)?;
        Ok(())
    }

    // after the children of the root, or of the document
    fn root_point(&self) -> InsertionPoint<S::Handle>
        requires { Sound (seen S.view self.now.held self.now.sink) }
        ensures place { place_of S.view.number (S.view.forest self.now.sink) result
            ≡ below (root_of (seen S.view self.now.held self.now.sink).stack) }
        ensures there { IsPlace (place_of S.view.number (S.view.forest self.now.sink) result)
            (S.view.forest self.now.sink) }
    {
        laws_of_forests();
        match first_element(self.held.open_elements()) {
            Some(root) => InsertionPoint::LastChild(root),
            None => InsertionPoint::LastChild(self.sink.get_document()),
        }
    }

    // inserts a comment at a place
    fn append_comment_at(
        &mut self,
        point: InsertionPoint<S::Handle>,
        text: Text,
    ) -> Result<(), ParseFault>
        requires sound { Sound (seen S.view self.old.held self.old.sink) }
        requires place { IsPlace (place_of S.view.number (S.view.forest self.old.sink) point)
            (S.view.forest self.old.sink) }
        ensures seen { OnOk result (seen S.view self.new.held self.new.sink ≡ commented_at
            (place_of S.view.number (S.view.forest self.old.sink) point) text (seen S.view self.old.held
            self.old.sink)) }
        ensures sound { OnOk result (Sound (seen S.view self.new.held self.new.sink)) }
        ensures forest { IsForest (S.view.forest self.new.sink) }
        ensures memory { IfErr result (λ e. e ≡ Memory) }
    {
        laws_of_forests();
        let comment = self.sink.create_comment(text)?;
        self.insert_at(point, NodeOrText::AppendNode(comment))?;
        Ok(())
    }

    /// Adds the attributes that an element lacks.
    pub fn add_attributes_if_missing(
        &mut self,
        target: S::Handle,
        attrs: Attributes,
    ) -> Result<(), ParseFault>
        requires sound { Sound (seen S.view self.old.held self.old.sink) }
        requires element { IsElement (S.view.number target) (S.view.forest self.old.sink) }
        ensures seen { OnOk result (seen S.view self.new.held self.new.sink ≡ with_attributes_of (S.view.number target)
            attrs (seen S.view self.old.held self.old.sink)) }
        ensures sound { OnOk result (Sound (seen S.view self.new.held self.new.sink)) }
        ensures forest { IsForest (S.view.forest self.new.sink) }
        ensures memory { IfErr result (λ e. e ≡ Memory) }
    {
        laws_of_forests();
        self.sink.add_attrs_if_missing(target, attrs)?;
        Ok(())
    }

    /// Sets the quirks mode.
    pub fn set_quirks_mode(&mut self, mode: QuirksMode) -> Result<(), ParseFault>
        requires { Sound (seen S.view self.old.held self.old.sink) }
        ensures seen { OnOk result (seen S.view self.new.held self.new.sink
            ≡ record (seen S.view self.old.held self.old.sink) { quirks = mode }) }
        ensures sound { OnOk result (Sound (seen S.view self.new.held self.new.sink)) }
        ensures forest { IsForest (S.view.forest self.new.sink) }
        ensures memory { IfErr result (λ e. e ≡ Memory) }
    {
        self.sink.set_quirks_mode(mode)?;
        Ok(())
    }
}
