//! A serializer whose writer is lent.
use crate::entries::OpenEntry;
use crate::fault::SerializeFault;
use crate::serializer::Serializer;
use crate::written_calls::{
    end_element, put_comment, put_doctype, put_instruction, put_text, start_element,
};
use html_lexemes::{Attribute, ByteWriter, QualName};

// a writer that is lent
pub(crate) struct LentWriter<'w, W>(pub(crate) &'w mut W);

// writes as `HtmlSerializer` does
pub(crate) struct LentSerializer<'w, W> {
    pub(crate) writer: LentWriter<'w, W>,
    pub(crate) scripting: bool,
    pub(crate) makes_parents: bool,
    // the innermost last
    pub(crate) entries: Vec<OpenEntry>,
}

impl<W: ByteWriter> Serializer for LentSerializer<'_, W> {
    ghost use Rattle.tree_serializer.specs.Lent.{Lent, LentMeans};
    ghost use Rattle.tree_serializer.specs.Parts.{writing_in};

    ghost Seen = { Lent };

    ghost seen = { λ s. record {
      writing = writing_in W.contents W.has_failed s.scripting s.makes_parents s.entries.items s.writer.0.now;
      reference = s.writer.0.ghost_name;
    } };

    ghost means = { LentMeans };

    fn start_elem(&mut self, name: &QualName, attrs: &[Attribute]) -> Result<(), SerializeFault> {
        start_element(
            self.writer.0,
            &mut self.entries,
            self.makes_parents,
            name,
            attrs,
        )
    }

    fn end_elem(&mut self, name: &QualName) -> Result<(), SerializeFault> {
        end_element(self.writer.0, &mut self.entries, self.makes_parents, name)
    }

    fn write_text(&mut self, text: &str) -> Result<(), SerializeFault> {
        put_text(
            self.writer.0,
            &mut self.entries,
            self.makes_parents,
            self.scripting,
            text,
        )
    }

    fn write_comment(&mut self, text: &str) -> Result<(), SerializeFault> {
        put_comment(self.writer.0, self.entries.as_slice(), text)
    }

    fn write_doctype(&mut self, name: &str) -> Result<(), SerializeFault> {
        put_doctype(self.writer.0, self.entries.as_slice(), name)
    }

    fn write_processing_instruction(
        &mut self,
        target: &str,
        contents: &str,
    ) -> Result<(), SerializeFault> {
        put_instruction(self.writer.0, self.entries.as_slice(), target, contents)
    }
}
