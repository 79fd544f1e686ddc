//! A serializer that writes HTML (WHATWG HTML, 13.3).
ghost use Rattle.std.specs.Prelude.{◌≡◌, ◌∷◌, [], IfOk, IfErr};
ghost use Rattle.tree_serializer.specs.Openings.{opening_entry};
ghost use Rattle.tree_serializer.specs.Seen.{writing_of};
ghost use Rattle.tree_serializer.specs.declared.fault.SerializeFault.TheVariants.{Memory};

use crate::entries::{OpenEntry, entry_alone, opening_entry};
use crate::fault::SerializeFault;
use crate::options::SerializeOpts;
use crate::serializer::Serializer;
use crate::written_calls::{
    end_element, put_comment, put_doctype, put_instruction, put_text, start_element,
};
use html_lexemes::{Attribute, ByteWriter, QualName};
use std::alloc::Global;

/// Writes what it is given as HTML (WHATWG HTML, 13.3). Nothing is written within a void element. A call that is
/// refused since allocation fails or of a parent changes nothing; after a fault of the writer a beginning is written.
#[derive(Drop)]
pub struct HtmlSerializer<W> {
    /// What the text is written to.
    pub writer: W,
    scripting: bool,
    makes_parents: bool,
    // the innermost last
    entries: Vec<OpenEntry>,
}

impl<W: ByteWriter> HtmlSerializer<W> {
    /// A serializer within one element, of which the options may give the name. The error is allocation failure alone.
    pub fn new(
        alloc: Global,
        writer: W,
        opts: SerializeOpts,
    ) -> Result<HtmlSerializer<W>, SerializeFault>
    where
        W: Drop,
        ensures ok { IfOk result (λ made. writing_of W.contents W.has_failed made ≡ record {
          scripting = opts.scripting_enabled;
          makes_parents = opts.create_missing_parent;
          entries = opening_entry opts.traversal_scope ∷ [];
          contents = W.contents writer;
          has_failed = W.has_failed writer;
        }) }
        ensures memory { IfErr result (λ fault. fault ≡ Memory) }
    {
        let SerializeOpts {
            scripting_enabled,
            traversal_scope,
            create_missing_parent,
        } = opts;
        let entries = entry_alone(alloc, opening_entry(traversal_scope))?;
        Ok(HtmlSerializer {
            writer,
            scripting: scripting_enabled,
            makes_parents: create_missing_parent,
            entries,
        })
    }

    /// What the text was written to.
    pub fn into_writer(self) -> W
        ensures { result ≡ self.writer }
    {
        let HtmlSerializer {
            writer,
            scripting: _,
            makes_parents: _,
            entries: _entries,
        } = self;
        writer
    }
}

impl<W: ByteWriter> Serializer for HtmlSerializer<W> {
    ghost use Rattle.tree_serializer.specs.Seen.{writing_of};
    ghost use Rattle.tree_serializer.specs.Writing.{Means, Writing};

    ghost Seen = { Writing };

    ghost seen = { λ s. writing_of W.contents W.has_failed s };

    ghost means = { Means };

    fn start_elem(&mut self, name: &QualName, attrs: &[Attribute]) -> Result<(), SerializeFault> {
        start_element(
            &mut self.writer,
            &mut self.entries,
            self.makes_parents,
            name,
            attrs,
        )
    }

    fn end_elem(&mut self, name: &QualName) -> Result<(), SerializeFault> {
        end_element(
            &mut self.writer,
            &mut self.entries,
            self.makes_parents,
            name,
        )
    }

    fn write_text(&mut self, text: &str) -> Result<(), SerializeFault> {
        put_text(
            &mut self.writer,
            &mut self.entries,
            self.makes_parents,
            self.scripting,
            text,
        )
    }

    fn write_comment(&mut self, text: &str) -> Result<(), SerializeFault> {
        put_comment(&mut self.writer, self.entries.as_slice(), text)
    }

    fn write_doctype(&mut self, name: &str) -> Result<(), SerializeFault> {
        put_doctype(&mut self.writer, self.entries.as_slice(), name)
    }

    fn write_processing_instruction(
        &mut self,
        target: &str,
        contents: &str,
    ) -> Result<(), SerializeFault> {
        put_instruction(&mut self.writer, self.entries.as_slice(), target, contents)
    }
}
