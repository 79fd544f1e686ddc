use crate::content::Content;
use html_lexemes::{Attributes, QualName, Text};

/// A node of a tree, by its number. It means something to the tree that gave it. A tree has no more than 2^32 nodes:
/// one more is refused, as since allocation fails.
#[derive(Clone, Copy, Debug, PartialEq, Eq)]
pub struct Handle {
    pub(crate) number: u32,
}

/// What a node is (WHATWG DOM, 4.5 to 4.14).
#[derive(Drop)]
pub enum NodeData {
    /// The page's document, or what holds a template's contents.
    Document,
    /// A doctype.
    Doctype {
        /// The name, empty where none was given.
        name: Text,
        /// The public identifier, empty where none was given.
        public_id: Text,
        /// The system identifier, empty where none was given.
        system_id: Text,
    },
    /// A text.
    Text {
        /// Its characters.
        contents: Text,
    },
    /// A comment.
    Comment {
        /// Its characters.
        contents: Text,
    },
    /// An element.
    Element {
        /// The name.
        name: QualName,
        /// The attributes, in order, each name once.
        attrs: Attributes,
        /// What holds a template's contents; of other elements none.
        template_contents: Option<Handle>,
        /// Whether it is an `annotation-xml` element whose contents are HTML.
        mathml_annotation_xml_integration_point: bool,
    },
    /// A processing instruction.
    ProcessingInstruction {
        /// What it is for.
        target: Text,
        /// What it says.
        contents: Text,
    },
}

/// A node in its place.
#[derive(Drop)]
pub(crate) struct Node {
    pub(crate) data: Content,
    pub(crate) parent: Option<Handle>,
    pub(crate) first: Option<Handle>,
    pub(crate) last: Option<Handle>,
    pub(crate) previous: Option<Handle>,
    pub(crate) next: Option<Handle>,
}
