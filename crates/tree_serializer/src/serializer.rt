//! What is emitted of a tree.
ghost use Rattle.tree_serializer.specs.Calls.{Call, Reply, doctype_of, finish, instruction_of, remark, reply_of, start};
ghost use Rattle.tree_serializer.specs.Calls.{text_run};
ghost use Rattle.std.specs.Prelude.{chars};

use crate::fault::SerializeFault;
use html_lexemes::{Attribute, QualName};

/// What a tree is emitted to, node by node (WHATWG HTML, 13.3). Contracts see an abstract state, and by `means` what
/// each call may make of it, with its reply.
pub trait Serializer {
    ghost Seen: { Type 0 };

    ghost seen: { Self → Seen };

    ghost means: { Seen → Call → Reply → Seen → Type 0 };

    /// An element begins.
    fn start_elem(&mut self, name: &QualName, attrs: &[Attribute]) -> Result<(), SerializeFault>
        ensures { means (seen self.old) (start name.now attrs.now) (reply_of result) (seen self.new) };

    /// The element that began last and hasn't ended yet ends.
    fn end_elem(&mut self, name: &QualName) -> Result<(), SerializeFault>
        ensures { means (seen self.old) (finish name.now) (reply_of result) (seen self.new) };

    /// A text.
    fn write_text(&mut self, text: &str) -> Result<(), SerializeFault>
        ensures { means (seen self.old) (text_run (chars text.now)) (reply_of result) (seen self.new) };

    /// A comment.
    fn write_comment(&mut self, text: &str) -> Result<(), SerializeFault>
        ensures { means (seen self.old) (remark (chars text.now)) (reply_of result) (seen self.new) };

    /// A doctype, of which its name is emitted.
    fn write_doctype(&mut self, name: &str) -> Result<(), SerializeFault>
        ensures { means (seen self.old) (doctype_of (chars name.now)) (reply_of result) (seen self.new) };

    /// A processing instruction.
    fn write_processing_instruction(
        &mut self,
        target: &str,
        contents: &str,
    ) -> Result<(), SerializeFault>
        ensures { means (seen self.old) (instruction_of (chars target.now) (chars contents.now)) (reply_of result)
            (seen self.new) };
}
