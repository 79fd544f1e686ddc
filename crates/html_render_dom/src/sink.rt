ghost use Rattle.std.specs.Prelude.{◌≡◌, [], ◌∷◌, ◌++◌, false, IfErr, IfOk, OnErr, OnOk};
ghost use Rattle.html_lexemes.specs.declared.fault.ParseFault.TheVariants.{Memory};
ghost use Rattle.tree_forest.specs.Changes.{detached, made, made_element, reparented, with_attributes};
ghost use Rattle.tree_forest.specs.Conditions.{CanPut, CanReparent};
ghost use Rattle.tree_forest.specs.Forest.{IsElement, comment, instruction, nodes};
ghost use Rattle.tree_forest.specs.Places.{based_on, before, below, put, with_doctype};
ghost use Rattle.tree_forest.specs.Sinks.{child_of};
ghost use Rattle.html_render_dom.specs.Numbers.{number_of};

use crate::dom::RcDom;
use crate::node::{Handle, NodeData};
use html_lexemes::{Attribute, Attributes, ErrorMessage, ParseFault, QualName, Text};
use tree_forest::{ElementFlags, NodeOrText, QuirksMode, TreeSink, where_children_stand};

impl TreeSink for RcDom {
    type Handle = Handle;

    type Output = RcDom;

    ghost use Rattle.std.proofs.Common.{refl};
    ghost use Rattle.html_render_dom.specs.Numbers.{handle_of, number_of};

    ghost view = { record {
      number = number_of;
      handle = handle_of;
      forest = λ dom. dom.forest;
      quirks = λ dom. dom.quirks;
    } };

    ghost tree = { λ dom. dom.forest };

    ghost tree_quirks = { λ dom. dom.quirks };

    ghost named = { λ target. refl };

    fn finish(self) -> RcDom
        ensures { result ≡ self }
    {
        self
    }

    fn parse_error(&mut self, message: ErrorMessage) -> Result<(), ParseFault>
        ensures forest { self.new.forest ≡ self.old.forest }
        ensures quirks { self.new.quirks ≡ self.old.quirks }
        ensures memory { IfErr result (λ e. e ≡ Memory) }
        ensures emitted { OnOk result (self.new.errors ≡ self.old.errors ++ message ∷ []) }
        ensures unemitted { OnErr result (self.new.errors ≡ self.old.errors) }
    {
        self.errors.push(message)?;
        Ok(())
    }

    fn get_document(&self) -> Handle {
        self.document()
    }

    fn elem_name(&self, target: Handle) -> &QualName {
        self.nodes.element_name(target)
    }

    fn create_element(
        &mut self,
        name: QualName,
        attrs: Attributes,
        flags: ElementFlags,
    ) -> Result<Handle, ParseFault>
        ensures number { IfOk result (λ made. number_of made ≡ nodes self.old.forest) }
        ensures forest { OnOk result (self.new.forest ≡ made_element name attrs flags.template
            flags.mathml_annotation_xml_integration_point self.old.forest) }
        ensures refused { OnErr result (self.new.forest ≡ self.old.forest) }
        ensures quirks { self.new.quirks ≡ self.old.quirks }
        ensures memory { IfErr result (λ e. e ≡ Memory) }
        ensures errors { self.new.errors ≡ self.old.errors }
    {
        Ok(self.nodes.make_element(name, attrs, flags)?)
    }

    fn create_comment(&mut self, text: Text) -> Result<Handle, ParseFault>
        ensures number { IfOk result (λ made. number_of made ≡ nodes self.old.forest) }
        ensures forest { OnOk result (self.new.forest ≡ made (comment text) self.old.forest) }
        ensures refused { OnErr result (self.new.forest ≡ self.old.forest) }
        ensures quirks { self.new.quirks ≡ self.old.quirks }
        ensures memory { IfErr result (λ e. e ≡ Memory) }
        ensures errors { self.new.errors ≡ self.old.errors }
    {
        Ok(self.nodes.make(NodeData::Comment { contents: text })?)
    }

    fn create_pi(&mut self, target: Text, text: Text) -> Result<Handle, ParseFault>
        ensures number { IfOk result (λ made. number_of made ≡ nodes self.old.forest) }
        ensures forest { OnOk result (self.new.forest ≡ made (instruction target text) self.old.forest) }
        ensures refused { OnErr result (self.new.forest ≡ self.old.forest) }
        ensures quirks { self.new.quirks ≡ self.old.quirks }
        ensures memory { IfErr result (λ e. e ≡ Memory) }
        ensures errors { self.new.errors ≡ self.old.errors }
    {
        let node = NodeData::ProcessingInstruction {
            target,
            contents: text,
        };
        Ok(self.nodes.make(node)?)
    }

    fn append(&mut self, parent: Handle, child: NodeOrText<Handle>) -> Result<(), ParseFault>
        requires { CanPut (below (number_of parent)) (child_of number_of child) self.old.forest }
        ensures forest { OnOk result (self.new.forest
            ≡ put (below (number_of parent)) (child_of number_of child) self.old.forest) }
        ensures refused { OnErr result (self.new.forest ≡ self.old.forest) }
        ensures quirks { self.new.quirks ≡ self.old.quirks }
        ensures memory { IfErr result (λ e. e ≡ Memory) }
        ensures errors { self.new.errors ≡ self.old.errors }
    {
        match child {
            NodeOrText::AppendNode(node) => self.nodes.put_below(parent, node),
            NodeOrText::AppendText(text) => self.nodes.say_below(parent, text)?,
        }
        Ok(())
    }

    fn append_before_sibling(
        &mut self,
        sibling: Handle,
        child: NodeOrText<Handle>,
    ) -> Result<(), ParseFault>
        requires { CanPut (before (number_of sibling)) (child_of number_of child) self.old.forest }
        ensures forest { OnOk result (self.new.forest
            ≡ put (before (number_of sibling)) (child_of number_of child) self.old.forest) }
        ensures refused { OnErr result (self.new.forest ≡ self.old.forest) }
        ensures quirks { self.new.quirks ≡ self.old.quirks }
        ensures memory { IfErr result (λ e. e ≡ Memory) }
        ensures errors { self.new.errors ≡ self.old.errors }
    {
        match child {
            NodeOrText::AppendNode(node) => self.nodes.put_before(sibling, node),
            NodeOrText::AppendText(text) => self.nodes.say_before(sibling, text)?,
        }
        Ok(())
    }

    fn append_based_on_parent_node(
        &mut self,
        element: Handle,
        prev_element: Handle,
        child: NodeOrText<Handle>,
    ) -> Result<(), ParseFault>
        requires { CanPut (based_on (number_of element) (number_of prev_element) self.old.forest)
            (child_of number_of child) self.old.forest }
        ensures forest { OnOk result (self.new.forest
            ≡ put (based_on (number_of element) (number_of prev_element) self.old.forest)
            (child_of number_of child) self.old.forest) }
        ensures refused { OnErr result (self.new.forest ≡ self.old.forest) }
        ensures quirks { self.new.quirks ≡ self.old.quirks }
        ensures memory { IfErr result (λ e. e ≡ Memory) }
        ensures errors { self.new.errors ≡ self.old.errors }
    {
        where_children_stand();
        match self.nodes.parent(element) {
            Some(_) => self.append_before_sibling(element, child),
            None => self.append(prev_element, child),
        }
    }

    fn append_doctype_to_document(
        &mut self,
        name: Text,
        public_id: Text,
        system_id: Text,
    ) -> Result<(), ParseFault>
        ensures forest { OnOk result (self.new.forest ≡ with_doctype name public_id system_id self.old.forest) }
        ensures refused { OnErr result (self.new.forest ≡ self.old.forest) }
        ensures quirks { self.new.quirks ≡ self.old.quirks }
        ensures memory { IfErr result (λ e. e ≡ Memory) }
        ensures errors { self.new.errors ≡ self.old.errors }
    {
        let node = NodeData::Doctype {
            name,
            public_id,
            system_id,
        };
        let document = self.document();
        self.nodes.put_new_below(document, node)?;
        Ok(())
    }

    fn add_attrs_if_missing(&mut self, target: Handle, attrs: Attributes) -> Result<(), ParseFault>
        requires { IsElement (number_of target) self.old.forest }
        ensures forest { OnOk result (self.new.forest ≡ with_attributes (number_of target) attrs self.old.forest) }
        ensures refused { OnErr result (self.new.forest ≡ self.old.forest) }
        ensures quirks { self.new.quirks ≡ self.old.quirks }
        ensures memory { IfErr result (λ e. e ≡ Memory) }
        ensures errors { self.new.errors ≡ self.old.errors }
    {
        self.nodes.add_missing_attributes(target, attrs)?;
        Ok(())
    }

    fn associate_with_form(
        &mut self,
        _target: Handle,
        _form: Handle,
        _element: Handle,
        _prev_element: Option<Handle>,
    ) -> Result<(), ParseFault>
        ensures forest { self.new.forest ≡ self.old.forest }
        ensures quirks { self.new.quirks ≡ self.old.quirks }
        ensures memory { IfErr result (λ e. e ≡ Memory) }
        ensures errors { self.new.errors ≡ self.old.errors }
    {
        Ok(())
    }

    fn remove_from_parent(&mut self, target: Handle) -> Result<(), ParseFault>
        ensures forest { OnOk result (self.new.forest ≡ detached (number_of target) self.old.forest) }
        ensures refused { OnErr result (self.new.forest ≡ self.old.forest) }
        ensures quirks { self.new.quirks ≡ self.old.quirks }
        ensures memory { IfErr result (λ e. e ≡ Memory) }
        ensures errors { self.new.errors ≡ self.old.errors }
    {
        self.nodes.detach(target);
        Ok(())
    }

    fn reparent_children(&mut self, node: Handle, new_parent: Handle) -> Result<(), ParseFault>
        requires { CanReparent (number_of node) (number_of new_parent) self.old.forest }
        ensures forest { OnOk result (self.new.forest
            ≡ reparented (number_of node) (number_of new_parent) self.old.forest) }
        ensures refused { OnErr result (self.new.forest ≡ self.old.forest) }
        ensures quirks { self.new.quirks ≡ self.old.quirks }
        ensures memory { IfErr result (λ e. e ≡ Memory) }
        ensures errors { self.new.errors ≡ self.old.errors }
    {
        self.nodes.reparent(node, new_parent);
        Ok(())
    }

    fn get_template_contents(&self, target: Handle) -> Handle {
        self.nodes.template_contents(target)
    }

    fn same_node(&self, x: Handle, y: Handle) -> bool {
        x == y
    }

    fn set_quirks_mode(&mut self, mode: QuirksMode) -> Result<(), ParseFault>
        ensures forest { self.new.forest ≡ self.old.forest }
        ensures quirks { OnOk result (self.new.quirks ≡ mode) }
        ensures refused { OnErr result (self.new.quirks ≡ self.old.quirks) }
        ensures memory { IfErr result (λ e. e ≡ Memory) }
        ensures errors { self.new.errors ≡ self.old.errors }
    {
        self.quirks_mode = mode;
        Ok(())
    }

    fn mark_script_already_started(&mut self, _target: Handle) -> Result<(), ParseFault>
        requires { IsElement (number_of _target) self.old.forest }
        ensures forest { self.new.forest ≡ self.old.forest }
        ensures quirks { self.new.quirks ≡ self.old.quirks }
        ensures memory { IfErr result (λ e. e ≡ Memory) }
        ensures errors { self.new.errors ≡ self.old.errors }
    {
        Ok(())
    }

    fn pop(&mut self, _target: Handle) -> Result<(), ParseFault>
        requires { IsElement (number_of _target) self.old.forest }
        ensures forest { self.new.forest ≡ self.old.forest }
        ensures quirks { self.new.quirks ≡ self.old.quirks }
        ensures memory { IfErr result (λ e. e ≡ Memory) }
        ensures errors { self.new.errors ≡ self.old.errors }
    {
        Ok(())
    }

    fn is_mathml_annotation_xml_integration_point(&self, target: Handle) -> bool {
        self.nodes.is_integration_point(target)
    }

    fn set_current_line(&mut self, _line: u64) -> Result<(), ParseFault>
        ensures forest { self.new.forest ≡ self.old.forest }
        ensures quirks { self.new.quirks ≡ self.old.quirks }
        ensures memory { IfErr result (λ e. e ≡ Memory) }
        ensures errors { self.new.errors ≡ self.old.errors }
    {
        Ok(())
    }

    fn attach_declarative_shadow(
        &mut self,
        _location: Handle,
        _template: Handle,
        _attrs: &[Attribute],
    ) -> Result<bool, ParseFault>
        ensures forest { self.new.forest ≡ self.old.forest }
        ensures quirks { self.new.quirks ≡ self.old.quirks }
        ensures memory { IfErr result (λ e. e ≡ Memory) }
        ensures never { IfOk result (λ is_attached. is_attached ≡ false) }
        ensures errors { self.new.errors ≡ self.old.errors }
    {
        Ok(false)
    }

    fn maybe_clone_an_option_into_selectedcontent(
        &mut self,
        _option: Handle,
    ) -> Result<(), ParseFault>
        ensures forest { self.new.forest ≡ self.old.forest }
        ensures quirks { self.new.quirks ≡ self.old.quirks }
        ensures memory { IfErr result (λ e. e ≡ Memory) }
        ensures errors { self.new.errors ≡ self.old.errors }
    {
        Ok(())
    }
}
