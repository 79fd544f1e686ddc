//! Elements, comments, doctypes and text that rules insert (WHATWG HTML, 13.2.6.1).
ghost use Rattle.std.specs.Prelude.{◌≡◌, IfErr, OnOk, true, IsTrue};
ghost use Rattle.html_lexemes.specs.declared.fault.ParseFault.TheVariants.{Memory};
ghost use Rattle.rules_actions.specs.Parsed.{state_of};
ghost use Rattle.rules_table.specs.Settling.{Ready};
ghost use Rattle.rules_table.specs.Actions.{act, add_attributes, append_doctype, at_place, bare, comment_to_document};
ghost use Rattle.rules_table.specs.Actions.{comment_to_root, foster, insert, insert_comment, insert_named, insert_void};
ghost use Rattle.rules_table.specs.Actions.{into_head, say, set_quirks};
ghost use Rattle.tree_forest.specs.Forest.{is_in};
ghost use Rattle.tree_names.specs.Sets.{is_ascii_word};

use crate::parse::Parse;
use html_lexemes::{Attributes, Doctype, LocalName, Namespace, ParseFault, QualName, Tag, Text};
use html_tree_state::{InsertionPoint, PushFlag};
use rules_table::{Target, actions_keep_what_is_ready, open_elements_are_elements};
use tree_forest::{QuirksMode, TreeSink};

impl<S: TreeSink> Parse<S> {
    /// An element is inserted for a tag ("insert an HTML element").
    #[tactic(auto, unfolding(rules_table::specs::Actions::act))]
    pub fn insert(&mut self, tag: &Tag) -> Result<(), ParseFault>
        requires ready { Ready (state_of S.view self.old) }
        ensures seen { OnOk result (state_of S.view self.new ≡ act (insert at_place tag.now)
            (state_of S.view self.old)) }
        ensures ready { OnOk result (Ready (state_of S.view self.new)) }
        ensures memory { IfErr result (λ e. e ≡ Memory) }
    {
        actions_keep_what_is_ready();
        let name = QualName::new(Namespace::Html, tag.name.try_clone()?);
        let attrs = tag.attrs.try_clone()?;
        self.insert_html(PushFlag::Push, name, attrs)?;
        Ok(())
    }

    /// An element without contents is inserted for a tag, and popped at once.
    #[tactic(auto, unfolding(rules_table::specs::Actions::act))]
    pub fn insert_void(&mut self, tag: &Tag) -> Result<(), ParseFault>
        requires ready { Ready (state_of S.view self.old) }
        ensures seen { OnOk result (state_of S.view self.new ≡ act (insert_void at_place tag.now)
            (state_of S.view self.old)) }
        ensures ready { OnOk result (Ready (state_of S.view self.new)) }
        ensures memory { IfErr result (λ e. e ≡ Memory) }
    {
        actions_keep_what_is_ready();
        let name = QualName::new(Namespace::Html, tag.name.try_clone()?);
        let attrs = tag.attrs.try_clone()?;
        self.insert_html(PushFlag::NoPush, name, attrs)?;
        Ok(())
    }

    /// An element is inserted for a tag, into the head where that is known.
    #[tactic(auto, unfolding(rules_table::specs::Actions::act))]
    pub fn insert_into_head(&mut self, tag: &Tag) -> Result<(), ParseFault>
        requires ready { Ready (state_of S.view self.old) }
        ensures seen { OnOk result (state_of S.view self.new ≡ act (insert into_head tag.now)
            (state_of S.view self.old)) }
        ensures ready { OnOk result (Ready (state_of S.view self.new)) }
        ensures memory { IfErr result (λ e. e ≡ Memory) }
    {
        actions_keep_what_is_ready();
        let Some(head) = self.kept.head else {
            return self.insert(tag);
        };
        let name = QualName::new(Namespace::Html, tag.name.try_clone()?);
        let attrs = tag.attrs.try_clone()?;
        self.tree.insert_element_at(InsertionPoint::LastChild(head), PushFlag::Push, name, attrs)?;
        Ok(())
    }

    /// An element without contents is inserted for a tag, into the head where that is known, and popped at once.
    #[tactic(auto, unfolding(rules_table::specs::Actions::act))]
    pub fn insert_void_into_head(&mut self, tag: &Tag) -> Result<(), ParseFault>
        requires ready { Ready (state_of S.view self.old) }
        ensures seen { OnOk result (state_of S.view self.new ≡ act (insert_void into_head tag.now)
            (state_of S.view self.old)) }
        ensures ready { OnOk result (Ready (state_of S.view self.new)) }
        ensures memory { IfErr result (λ e. e ≡ Memory) }
    {
        actions_keep_what_is_ready();
        let Some(head) = self.kept.head else {
            return self.insert_void(tag);
        };
        let name = QualName::new(Namespace::Html, tag.name.try_clone()?);
        let attrs = tag.attrs.try_clone()?;
        self.tree.insert_element_at(
            InsertionPoint::LastChild(head),
            PushFlag::NoPush,
            name,
            attrs,
        )?;
        Ok(())
    }

    /// An element of a name, a word of ASCII characters, is inserted without attributes.
    #[tactic(auto, unfolding(rules_table::specs::Actions::act))]
    pub fn insert_named(&mut self, word: &str) -> Result<(), ParseFault>
        requires ready { Ready (state_of S.view self.old) }
        requires ascii { IsTrue (is_ascii_word word.now) }
        ensures seen { OnOk result (state_of S.view self.new ≡ act (insert_named word.now) (state_of S.view self.old)) }
        ensures ready { OnOk result (Ready (state_of S.view self.new)) }
        ensures memory { IfErr result (λ e. e ≡ Memory) }
    {
        actions_keep_what_is_ready();
        let alloc = *self.kept.template_modes.allocator();
        let name = QualName::new(Namespace::Html, LocalName::from_str(alloc, word)?);
        self.tree
            .insert_element(PushFlag::Push, name, Attributes::new(alloc))?;
        Ok(())
    }

    /// A comment is inserted.
    #[tactic(auto, unfolding(rules_table::specs::Actions::act))]
    pub fn insert_comment(&mut self, text: Text) -> Result<(), ParseFault>
        requires ready { Ready (state_of S.view self.old) }
        ensures seen { OnOk result (state_of S.view self.new ≡ act (insert_comment text) (state_of S.view self.old)) }
        ensures ready { OnOk result (Ready (state_of S.view self.new)) }
        ensures memory { IfErr result (λ e. e ≡ Memory) }
    {
        actions_keep_what_is_ready();
        self.tree.append_comment(text)?;
        Ok(())
    }

    /// A comment is put after the children of the document.
    #[tactic(auto, unfolding(rules_table::specs::Actions::act))]
    pub fn comment_to_document(&mut self, text: Text) -> Result<(), ParseFault>
        requires ready { Ready (state_of S.view self.old) }
        ensures seen { OnOk result (state_of S.view self.new ≡ act (comment_to_document text)
            (state_of S.view self.old)) }
        ensures ready { OnOk result (Ready (state_of S.view self.new)) }
        ensures memory { IfErr result (λ e. e ≡ Memory) }
    {
        actions_keep_what_is_ready();
        self.tree.append_comment_to_document(text)?;
        Ok(())
    }

    /// A comment is put after the children of the root.
    #[tactic(auto, unfolding(rules_table::specs::Actions::act))]
    pub fn comment_to_root(&mut self, text: Text) -> Result<(), ParseFault>
        requires ready { Ready (state_of S.view self.old) }
        ensures seen { OnOk result (state_of S.view self.new ≡ act (comment_to_root text) (state_of S.view self.old)) }
        ensures ready { OnOk result (Ready (state_of S.view self.new)) }
        ensures memory { IfErr result (λ e. e ≡ Memory) }
    {
        actions_keep_what_is_ready();
        self.tree.append_comment_to_html(text)?;
        Ok(())
    }

    /// A doctype is put after the children of the document.
    #[tactic(auto, unfolding(rules_table::specs::Actions::act))]
    pub fn append_doctype(&mut self, doctype: Doctype) -> Result<(), ParseFault>
        requires ready { Ready (state_of S.view self.old) }
        ensures seen { OnOk result (state_of S.view self.new
            ≡ act (append_doctype doctype) (state_of S.view self.old)) }
        ensures ready { OnOk result (Ready (state_of S.view self.new)) }
        ensures memory { IfErr result (λ e. e ≡ Memory) }
    {
        actions_keep_what_is_ready();
        self.tree.append_doctype_to_document(doctype)?;
        Ok(())
    }

    /// The quirks mode is set.
    #[tactic(auto, unfolding(rules_table::specs::Actions::act))]
    pub fn set_quirks(&mut self, mode: QuirksMode) -> Result<(), ParseFault>
        requires ready { Ready (state_of S.view self.old) }
        ensures seen { OnOk result (state_of S.view self.new ≡ act (set_quirks mode) (state_of S.view self.old)) }
        ensures ready { OnOk result (Ready (state_of S.view self.new)) }
        ensures memory { IfErr result (λ e. e ≡ Memory) }
    {
        actions_keep_what_is_ready();
        self.kept.quirks = mode;
        self.tree.set_quirks_mode(mode)?;
        Ok(())
    }

    /// Characters are inserted.
    #[tactic(auto, unfolding(rules_table::specs::Actions::act))]
    pub fn say(&mut self, text: Text) -> Result<(), ParseFault>
        requires ready { Ready (state_of S.view self.old) }
        ensures seen { OnOk result (state_of S.view self.new ≡ act (say text) (state_of S.view self.old)) }
        ensures ready { OnOk result (Ready (state_of S.view self.new)) }
        ensures memory { IfErr result (λ e. e ≡ Memory) }
    {
        actions_keep_what_is_ready();
        self.tree.append_text(text)?;
        Ok(())
    }

    /// An open element takes the attributes that it lacks.
    #[tactic(auto, unfolding(rules_table::specs::Actions::act))]
    pub fn add_attributes(
        &mut self,
        element: S::Handle,
        attrs: &Attributes,
    ) -> Result<(), ParseFault>
        requires ready { Ready (state_of S.view self.old) }
        requires there { is_in (S.view.number element) (state_of S.view self.old).tree.stack ≡ true }
        ensures seen { OnOk result (state_of S.view self.new ≡ act (add_attributes (S.view.number element) attrs.now)
            (state_of S.view self.old)) }
        ensures ready { OnOk result (Ready (state_of S.view self.new)) }
        ensures memory { IfErr result (λ e. e ≡ Memory) }
    {
        actions_keep_what_is_ready();
        open_elements_are_elements();
        let attrs = attrs.try_clone()?;
        self.tree.add_attributes_if_missing(element, attrs)?;
        Ok(())
    }

    /// Foster parenting is turned on or off.
    #[tactic(auto, unfolding(rules_table::specs::Actions::act))]
    pub fn set_fostering(&mut self, is_on: bool)
        requires ready { Ready (state_of S.view self.old) }
        ensures seen { state_of S.view self.new ≡ act (foster is_on) (state_of S.view self.old) }
        ensures ready { Ready (state_of S.view self.new) }
    {
        actions_keep_what_is_ready();
        self.tree.held.set_fostering(is_on);
    }

    /// An element without contents is inserted for a tag under another name, a word of ASCII characters, and popped at
    /// once.
    #[tactic(auto, unfolding(rules_table::specs::Actions::act))]
    pub fn insert_void_as(&mut self, word: &str, tag: &Tag) -> Result<(), ParseFault>
        requires ready { Ready (state_of S.view self.old) }
        requires ascii { IsTrue (is_ascii_word word.now) }
        ensures seen { OnOk result (state_of S.view self.new ≡ act (insert_void at_place (record
            tag.now { name = word.now })) (state_of S.view self.old)) }
        ensures ready { OnOk result (Ready (state_of S.view self.new)) }
        ensures memory { IfErr result (λ e. e ≡ Memory) }
    {
        actions_keep_what_is_ready();
        let alloc = *self.kept.template_modes.allocator();
        let name = QualName::new(Namespace::Html, LocalName::from_str(alloc, word)?);
        let attributes = tag.attrs.try_clone()?;
        self.insert_html(PushFlag::NoPush, name, attributes)?;
        Ok(())
    }

    /// An element of a name, a word of ASCII characters, is inserted without attributes, and popped at once.
    #[tactic(auto, unfolding(rules_table::specs::Actions::act))]
    pub fn insert_void_named(&mut self, word: &str) -> Result<(), ParseFault>
        requires ready { Ready (state_of S.view self.old) }
        requires ascii { IsTrue (is_ascii_word word.now) }
        ensures seen { OnOk result (state_of S.view self.new ≡ act (insert_void at_place (bare word.now))
            (state_of S.view self.old)) }
        ensures ready { OnOk result (Ready (state_of S.view self.new)) }
        ensures memory { IfErr result (λ e. e ≡ Memory) }
    {
        actions_keep_what_is_ready();
        let alloc = *self.kept.template_modes.allocator();
        let name = QualName::new(Namespace::Html, LocalName::from_str(alloc, word)?);
        self.tree
            .insert_element(PushFlag::NoPush, name, Attributes::new(alloc))?;
        Ok(())
    }

    /// An element is inserted for a tag, at the appropriate place or into the head.
    pub fn insert_at(&mut self, target: Target, tag: &Tag) -> Result<(), ParseFault>
        requires ready { Ready (state_of S.view self.old) }
        ensures seen { OnOk result (state_of S.view self.new ≡ act (insert target tag.now) (state_of S.view self.old)) }
        ensures ready { OnOk result (Ready (state_of S.view self.new)) }
        ensures memory { IfErr result (λ e. e ≡ Memory) }
    {
        match target {
            Target::AtPlace => self.insert(tag),
            Target::IntoHead => self.insert_into_head(tag),
        }
    }

    /// An element without contents is inserted for a tag, at the appropriate place or into the head.
    pub fn insert_void_at(&mut self, target: Target, tag: &Tag) -> Result<(), ParseFault>
        requires ready { Ready (state_of S.view self.old) }
        ensures seen { OnOk result (state_of S.view self.new ≡ act (insert_void target tag.now)
            (state_of S.view self.old)) }
        ensures ready { OnOk result (Ready (state_of S.view self.new)) }
        ensures memory { IfErr result (λ e. e ≡ Memory) }
    {
        match target {
            Target::AtPlace => self.insert_void(tag),
            Target::IntoHead => self.insert_void_into_head(tag),
        }
    }
}
