ghost use Rattle.std.specs.Prelude.{◌≡◌, ℕ, Option, Some, IfErr, IfOk, OnErr, OnOk, ◌==◌};
ghost use Rattle.html_lexemes.specs.declared.fault.ParseFault.TheVariants.{Memory};
ghost use Rattle.tree_forest.specs.Changes.{detached, made, made_element, reparented, with_attributes};
ghost use Rattle.tree_forest.specs.Conditions.{CanPut, CanReparent};
ghost use Rattle.tree_forest.specs.Forest.{Forest, IsElement, comment, contents_of, instruction, is_integration_point};
ghost use Rattle.tree_forest.specs.Forest.{name_of, nodes};
ghost use Rattle.tree_forest.specs.Places.{based_on, before, below, put, with_doctype};
ghost use Rattle.tree_forest.specs.Sinks.{SinkView, child_of};
ghost use Rattle.tree_forest.specs.declared.sink.QuirksMode.{QuirksMode as Quirks};

use html_lexemes::{Attribute, Attributes, ErrorMessage, ParseFault, QualName, Text};

/// How a page is laid out (WHATWG DOM, 4.5).
#[derive(Clone, Copy, Debug, PartialEq, Eq)]
pub enum QuirksMode {
    /// As old browsers did.
    Quirks,
    /// As old browsers did in tables alone.
    LimitedQuirks,
    /// As the standards say.
    NoQuirks,
}

/// What is put into a tree.
#[derive(Drop)]
pub enum NodeOrText<H> {
    /// A node that stands nowhere yet.
    AppendNode(H),
    /// Characters, which join the text right before their place, where there is one.
    AppendText(Text),
}

/// What else an element is made with.
#[derive(Clone, Copy, Debug, PartialEq, Eq)]
pub struct ElementFlags {
    /// Whether it is a template, which has contents beside its children (WHATWG HTML, 4.12.3).
    pub template: bool,
    /// Whether it is an `annotation-xml` element whose contents are HTML (WHATWG HTML, 13.2.6).
    pub mathml_annotation_xml_integration_point: bool,
}

/// What a page's tree is built into. Contracts see a forest, whose nodes have numbers in the order in which they were
/// made, and a quirks mode. A call that is refused changes neither; the error is allocation failure alone.
pub trait TreeSink {
    /// What stands for a node.
    type Handle: Copy;

    /// What a finished tree is given as.
    type Output;

    ghost view: { SinkView Self Self.Handle };

    ghost tree: { Self.Output → Forest };

    ghost tree_quirks: { Self.Output → Quirks };

    /// The finished tree.
    fn finish(self) -> Self::Output
        ensures forest { tree result ≡ view.forest self }
        ensures quirks { tree_quirks result ≡ view.quirks self };

    /// Takes note of a parse error.
    fn parse_error(&mut self, message: ErrorMessage) -> Result<(), ParseFault>
        ensures forest { view.forest self.new ≡ view.forest self.old }
        ensures quirks { view.quirks self.new ≡ view.quirks self.old }
        ensures memory { IfErr result (λ e. e ≡ Memory) };

    /// The document.
    fn get_document(&self) -> Self::Handle
        ensures { view.number result ≡ 0 };

    /// The name of an element.
    fn elem_name(&self, target: Self::Handle) -> &QualName
        requires { IsElement (view.number target) (view.forest self.now) }
        ensures { result.now ≡ name_of (view.number target) (view.forest self.now) };

    /// An element more, which stands nowhere yet (WHATWG DOM, 4.9, "create an element").
    fn create_element(
        &mut self,
        name: QualName,
        attrs: Attributes,
        flags: ElementFlags,
    ) -> Result<Self::Handle, ParseFault>
        ensures number { IfOk result (λ made. view.number made ≡ nodes (view.forest self.old)) }
        ensures forest { OnOk result (view.forest self.new ≡ made_element name attrs flags.template
            flags.mathml_annotation_xml_integration_point (view.forest self.old)) }
        ensures refused { OnErr result (view.forest self.new ≡ view.forest self.old) }
        ensures quirks { view.quirks self.new ≡ view.quirks self.old }
        ensures memory { IfErr result (λ e. e ≡ Memory) };

    /// A comment more, which stands nowhere yet (WHATWG DOM, 4.14).
    fn create_comment(&mut self, text: Text) -> Result<Self::Handle, ParseFault>
        ensures number { IfOk result (λ made. view.number made ≡ nodes (view.forest self.old)) }
        ensures forest { OnOk result (view.forest self.new ≡ made (comment text) (view.forest self.old)) }
        ensures refused { OnErr result (view.forest self.new ≡ view.forest self.old) }
        ensures quirks { view.quirks self.new ≡ view.quirks self.old }
        ensures memory { IfErr result (λ e. e ≡ Memory) };

    /// A processing instruction more, which stands nowhere yet (WHATWG DOM, 4.13).
    fn create_pi(&mut self, target: Text, text: Text) -> Result<Self::Handle, ParseFault>
        ensures number { IfOk result (λ made. view.number made ≡ nodes (view.forest self.old)) }
        ensures forest { OnOk result (view.forest self.new ≡ made (instruction target text) (view.forest self.old)) }
        ensures refused { OnErr result (view.forest self.new ≡ view.forest self.old) }
        ensures quirks { view.quirks self.new ≡ view.quirks self.old }
        ensures memory { IfErr result (λ e. e ≡ Memory) };

    /// Puts a node or a text after the children of a node (WHATWG DOM, 4.2.3, "append").
    fn append(
        &mut self,
        parent: Self::Handle,
        child: NodeOrText<Self::Handle>,
    ) -> Result<(), ParseFault>
        requires { CanPut (below (view.number parent)) (child_of view.number child) (view.forest self.old) }
        ensures forest { OnOk result (view.forest self.new ≡ put (below (view.number parent))
            (child_of view.number child) (view.forest self.old)) }
        ensures refused { OnErr result (view.forest self.new ≡ view.forest self.old) }
        ensures quirks { view.quirks self.new ≡ view.quirks self.old }
        ensures memory { IfErr result (λ e. e ≡ Memory) };

    /// Puts a node or a text right before a child (WHATWG DOM, 4.2.3, "insert").
    fn append_before_sibling(
        &mut self,
        sibling: Self::Handle,
        child: NodeOrText<Self::Handle>,
    ) -> Result<(), ParseFault>
        requires { CanPut (before (view.number sibling)) (child_of view.number child) (view.forest self.old) }
        ensures forest { OnOk result (view.forest self.new ≡ put (before (view.number sibling))
            (child_of view.number child) (view.forest self.old)) }
        ensures refused { OnErr result (view.forest self.new ≡ view.forest self.old) }
        ensures quirks { view.quirks self.new ≡ view.quirks self.old }
        ensures memory { IfErr result (λ e. e ≡ Memory) };

    /// Puts a node or a text right before an element that has a parent, else after the children of another (WHATWG
    /// HTML, 13.2.6.1, foster parent).
    fn append_based_on_parent_node(
        &mut self,
        element: Self::Handle,
        prev_element: Self::Handle,
        child: NodeOrText<Self::Handle>,
    ) -> Result<(), ParseFault>
        requires { CanPut (based_on (view.number element) (view.number prev_element) (view.forest self.old))
            (child_of view.number child) (view.forest self.old) }
        ensures forest { OnOk result (view.forest self.new
            ≡ put (based_on (view.number element) (view.number prev_element)
            (view.forest self.old)) (child_of view.number child) (view.forest self.old)) }
        ensures refused { OnErr result (view.forest self.new ≡ view.forest self.old) }
        ensures quirks { view.quirks self.new ≡ view.quirks self.old }
        ensures memory { IfErr result (λ e. e ≡ Memory) };

    /// Puts a doctype after the children of the document (WHATWG DOM, 4.6).
    fn append_doctype_to_document(
        &mut self,
        name: Text,
        public_id: Text,
        system_id: Text,
    ) -> Result<(), ParseFault>
        ensures forest { OnOk result (view.forest self.new ≡ with_doctype name public_id system_id
            (view.forest self.old)) }
        ensures refused { OnErr result (view.forest self.new ≡ view.forest self.old) }
        ensures quirks { view.quirks self.new ≡ view.quirks self.old }
        ensures memory { IfErr result (λ e. e ≡ Memory) };

    /// Adds the attributes whose names an element lacks (WHATWG HTML, 13.2.6.4.7, `html` and `body`).
    fn add_attrs_if_missing(
        &mut self,
        target: Self::Handle,
        attrs: Attributes,
    ) -> Result<(), ParseFault>
        requires { IsElement (view.number target) (view.forest self.old) }
        ensures forest { OnOk result (view.forest self.new ≡ with_attributes (view.number target) attrs
            (view.forest self.old)) }
        ensures refused { OnErr result (view.forest self.new ≡ view.forest self.old) }
        ensures quirks { view.quirks self.new ≡ view.quirks self.old }
        ensures memory { IfErr result (λ e. e ≡ Memory) };

    /// Says that a control belongs to a form (WHATWG HTML, 4.10.18.3).
    fn associate_with_form(
        &mut self,
        target: Self::Handle,
        form: Self::Handle,
        element: Self::Handle,
        prev_element: Option<Self::Handle>,
    ) -> Result<(), ParseFault>
        ensures forest { view.forest self.new ≡ view.forest self.old }
        ensures quirks { view.quirks self.new ≡ view.quirks self.old }
        ensures memory { IfErr result (λ e. e ≡ Memory) };

    /// Takes a node out of its parent's children, where it has one (WHATWG DOM, 4.2.3, "remove").
    fn remove_from_parent(&mut self, target: Self::Handle) -> Result<(), ParseFault>
        ensures forest { OnOk result (view.forest self.new ≡ detached (view.number target) (view.forest self.old)) }
        ensures refused { OnErr result (view.forest self.new ≡ view.forest self.old) }
        ensures quirks { view.quirks self.new ≡ view.quirks self.old }
        ensures memory { IfErr result (λ e. e ≡ Memory) };

    /// Puts all children of a node after those of another (WHATWG HTML, 13.2.6.4.7, adoption agency).
    fn reparent_children(
        &mut self,
        node: Self::Handle,
        new_parent: Self::Handle,
    ) -> Result<(), ParseFault>
        requires { CanReparent (view.number node) (view.number new_parent) (view.forest self.old) }
        ensures forest { OnOk result (view.forest self.new ≡ reparented (view.number node) (view.number new_parent)
            (view.forest self.old)) }
        ensures refused { OnErr result (view.forest self.new ≡ view.forest self.old) }
        ensures quirks { view.quirks self.new ≡ view.quirks self.old }
        ensures memory { IfErr result (λ e. e ≡ Memory) };

    /// What holds a template's contents (WHATWG HTML, 4.12.3).
    fn get_template_contents(&self, target: Self::Handle) -> Self::Handle
        requires { (n : ℕ) × (contents_of (view.number target) (view.forest self.now) ≡ Some n) }
        ensures { contents_of (view.number target) (view.forest self.now) ≡ Some (view.number result) };

    /// Whether two handles are of one node.
    fn same_node(&self, x: Self::Handle, y: Self::Handle) -> bool
        ensures { result ≡ (view.number x == view.number y) };

    /// Sets the quirks mode.
    fn set_quirks_mode(&mut self, mode: QuirksMode) -> Result<(), ParseFault>
        ensures forest { view.forest self.new ≡ view.forest self.old }
        ensures quirks { OnOk result (view.quirks self.new ≡ mode) }
        ensures refused { OnErr result (view.quirks self.new ≡ view.quirks self.old) }
        ensures memory { IfErr result (λ e. e ≡ Memory) };

    /// Says that a script must not run (WHATWG HTML, 13.2.6.4.4).
    fn mark_script_already_started(&mut self, target: Self::Handle) -> Result<(), ParseFault>
        requires { IsElement (view.number target) (view.forest self.old) }
        ensures forest { view.forest self.new ≡ view.forest self.old }
        ensures quirks { view.quirks self.new ≡ view.quirks self.old }
        ensures memory { IfErr result (λ e. e ≡ Memory) };

    /// Says that an element is no longer open (WHATWG HTML, 13.2.4.2).
    fn pop(&mut self, target: Self::Handle) -> Result<(), ParseFault>
        requires { IsElement (view.number target) (view.forest self.old) }
        ensures forest { view.forest self.new ≡ view.forest self.old }
        ensures quirks { view.quirks self.new ≡ view.quirks self.old }
        ensures memory { IfErr result (λ e. e ≡ Memory) };

    /// Whether an element is an `annotation-xml` element whose contents are HTML.
    fn is_mathml_annotation_xml_integration_point(&self, target: Self::Handle) -> bool
        requires { IsElement (view.number target) (view.forest self.now) }
        ensures { result ≡ is_integration_point (view.number target) (view.forest self.now) };

    /// Says which line of the page is read, from 1.
    fn set_current_line(&mut self, line: u64) -> Result<(), ParseFault>
        ensures forest { view.forest self.new ≡ view.forest self.old }
        ensures quirks { view.quirks self.new ≡ view.quirks self.old }
        ensures memory { IfErr result (λ e. e ≡ Memory) };

    /// Whether a declarative shadow root was attached to an element (WHATWG HTML, 13.2.6.4.4).
    fn attach_declarative_shadow(
        &mut self,
        location: Self::Handle,
        template: Self::Handle,
        attrs: &[Attribute],
    ) -> Result<bool, ParseFault>
        ensures forest { view.forest self.new ≡ view.forest self.old }
        ensures quirks { view.quirks self.new ≡ view.quirks self.old }
        ensures memory { IfErr result (λ e. e ≡ Memory) };

    /// Says that an option was closed, which a `selectedcontent` element may show (WHATWG HTML, 4.10.10).
    fn maybe_clone_an_option_into_selectedcontent(
        &mut self,
        option: Self::Handle,
    ) -> Result<(), ParseFault>
        ensures forest { view.forest self.new ≡ view.forest self.old }
        ensures quirks { view.quirks self.new ≡ view.quirks self.old }
        ensures memory { IfErr result (λ e. e ≡ Memory) };

    ghost named: { (target : Self.Handle) → view.handle (view.number target) ≡ target };
}
