//! Steps that pages are built by, in any sink.
ghost use Rattle.std.specs.Prelude.{◌≡◌, OnOk};
ghost use Rattle.tree_forest.specs.Forest.{page_alone};
ghost use Rattle.html_tree_state.specs.Building.{seen};
ghost use Rattle.html_tree_state.specs.Sound.{Sound};

use crate::words::attributes;
use html_lexemes::{Attributes, LocalName, Namespace, ParseFault, QualName, Tag, TagKind, Text};
use html_tree_state::{Construction, ElementSet, Held, PushFlag};
use std::alloc::{AllocError, Global};
use tree_forest::{QuirksMode, TreeSink, a_page_alone_is_a_forest};
use tree_names::is_formatting_tag;

/// A step. Open elements are counted from the root, which is 0.
pub(crate) enum Step {
    /// An element of HTML is inserted, and becomes the current node.
    Open(&'static str),
    /// The same of SVG.
    OpenSvg(&'static str),
    /// A formatting element is inserted and listed, with at most one attribute.
    Format(&'static str, &'static [(&'static str, &'static str)]),
    Say(&'static str),
    Comment(&'static str),
    /// A comment below the document.
    Remark(&'static str),
    /// The current node is given the attributes that it lacks.
    Add(&'static [(&'static str, &'static str)]),
    Mode(QuirksMode),
    ClosePInButtonScope,
    /// Any other end tag.
    End(&'static str),
    Foster(bool),
    Pop,
    /// The end tags of all elements but one are implied.
    Imply(&'static str),
    PopTo(&'static str),
    PopDownTo(&'static str),
    /// Pops up to an open element itself.
    PopWith(usize),
    BreakOut,
    Mark,
    ClearToMarker,
    /// An open element is taken off the stack.
    TakeOff(usize),
}

/// Nothing open, and a page's document alone.
pub(crate) fn begun<S: TreeSink>(alloc: Global, sink: S) -> Construction<S>
    requires { S.view.forest sink ≡ page_alone }
    ensures { Sound (seen S.view result.held result.sink) }
{
    a_page_alone_is_a_forest();
    Construction {
        held: Held::new(alloc),
        sink,
    }
}

/// Takes steps, one after another.
pub(crate) fn take_all<S: TreeSink>(
    tree: &mut Construction<S>,
    alloc: Global,
    steps: &[Step],
) -> Result<(), ParseFault>
    requires { Sound (seen S.view tree.old.held tree.old.sink) }
    ensures { OnOk result (Sound (seen S.view tree.new.held tree.new.sink)) }
{
    'steps: for step in steps {
        take(tree, alloc, step)?;
    }
    Ok(())
}

fn take<S: TreeSink>(
    tree: &mut Construction<S>,
    alloc: Global,
    step: &Step,
) -> Result<(), ParseFault>
    requires { Sound (seen S.view tree.old.held tree.old.sink) }
    ensures { OnOk result (Sound (seen S.view tree.new.held tree.new.sink)) }
{
    match *step {
        Step::Open(name) => open(tree, alloc, Namespace::Html, name),
        Step::OpenSvg(name) => open(tree, alloc, Namespace::Svg, name),
        Step::Format(name, pairs) => format(tree, alloc, name, pairs),
        Step::Say(text) => tree.append_text(Text::from_str(alloc, text)?),
        Step::Comment(text) => tree.append_comment(Text::from_str(alloc, text)?),
        Step::Remark(text) => tree.append_comment_to_document(Text::from_str(alloc, text)?),
        Step::Add(pairs) => add(tree, attributes(alloc, pairs)?),
        Step::Mode(mode) => tree.set_quirks_mode(mode),
        Step::ClosePInButtonScope => tree.close_p_element_in_button_scope(),
        Step::End(name) => tree.process_end_tag_in_body(&LocalName::from_str(alloc, name)?),
        Step::Pop => tree.pop(),
        Step::Imply(except) => tree.generate_implied_end_tags(set_of(except)),
        Step::PopTo(name) => tree.pop_to(set_of(name)),
        Step::PopDownTo(name) => tree.pop_down_to(set_of(name)),
        Step::BreakOut => tree.break_out_of_foreign_content(),
        Step::Mark => tree.insert_marker(),
        _ => take_other(tree, step),
    }
}

// those that take no memory of their own
fn take_other<S: TreeSink>(tree: &mut Construction<S>, step: &Step) -> Result<(), ParseFault>
    requires { Sound (seen S.view tree.old.held tree.old.sink) }
    ensures { OnOk result (Sound (seen S.view tree.new.held tree.new.sink)) }
{
    match *step {
        Step::Foster(is_fostering) => foster(tree, is_fostering),
        Step::ClearToMarker => tree.clear_active_formatting_to_marker(),
        Step::PopWith(index) => {
            if let Some(element) = tree.held.open_elements().get(index).copied() {
                return tree.pop_with(element);
            }
        }
        Step::TakeOff(index) => {
            if let Some(element) = tree.held.open_elements().get(index).copied() {
                tree.remove_from_stack(element);
            }
        }
        _ => {}
    }
    Ok(())
}

fn open<S: TreeSink>(
    tree: &mut Construction<S>,
    alloc: Global,
    ns: Namespace,
    name: &str,
) -> Result<(), ParseFault>
    requires { Sound (seen S.view tree.old.held tree.old.sink) }
    ensures { OnOk result (Sound (seen S.view tree.new.held tree.new.sink)) }
{
    let name = QualName::new(ns, LocalName::from_str(alloc, name)?);
    tree.insert_element(PushFlag::Push, name, Attributes::new(alloc))?;
    Ok(())
}

fn format<S: TreeSink>(
    tree: &mut Construction<S>,
    alloc: Global,
    name: &str,
    pairs: &[(&str, &str)],
) -> Result<(), ParseFault>
    requires { Sound (seen S.view tree.old.held tree.old.sink) }
    ensures { OnOk result (Sound (seen S.view tree.new.held tree.new.sink)) }
{
    let tag = start_tag(alloc, name, attributes(alloc, pairs)?)?;
    if is_formatting_tag(&tag.name) {
        tree.insert_formatting_element(tag)?;
    }
    Ok(())
}

fn add<S: TreeSink>(tree: &mut Construction<S>, attrs: Attributes) -> Result<(), ParseFault>
    requires { Sound (seen S.view tree.old.held tree.old.sink) }
    ensures { OnOk result (Sound (seen S.view tree.new.held tree.new.sink)) }
{
    match tree.current_node() {
        Some(current) => tree.add_attributes_if_missing(current, attrs),
        None => Ok(()),
    }
}

fn foster<S: TreeSink>(tree: &mut Construction<S>, is_fostering: bool)
    requires { Sound (seen S.view tree.old.held tree.old.sink) }
    ensures { Sound (seen S.view tree.new.held tree.new.sink) }
{
    tree.held.set_fostering(is_fostering);
}

/// The set that an element is in; without a name that of none.
pub(crate) fn set_of(name: &str) -> ElementSet<'static> {
    match name {
        "form" => ElementSet::Form,
        "h1" => ElementSet::Heading,
        "li" => ElementSet::ListItem,
        "p" => ElementSet::Paragraph,
        "select" => ElementSet::Select,
        _ => ElementSet::Nothing,
    }
}

/// A start tag.
pub(crate) fn start_tag(alloc: Global, name: &str, attrs: Attributes) -> Result<Tag, AllocError> {
    Ok(Tag {
        kind: TagKind::StartTag,
        name: LocalName::from_str(alloc, name)?,
        self_closing: false,
        attrs,
        had_duplicate_attributes: false,
    })
}
