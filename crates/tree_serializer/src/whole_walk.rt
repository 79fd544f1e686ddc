//! A whole tree, written.
ghost use Rattle.std.specs.Prelude.{◌≡◌, ◌≢◌, true, Err, OnErr, OnOk};
ghost use Rattle.tree_serializer.specs.Walks.{walk_text};
ghost use Rattle.tree_serializer.specs.Writing.{Grows, GrowsPart};

use crate::entries::{entry_alone, opening_entry};
use crate::fault::SerializeFault;
use crate::lent::{LentSerializer, LentWriter};
use crate::options::SerializeOpts;
use crate::walk::Serialize;
use html_lexemes::ByteWriter;
use std::alloc::Global;

/// Writes a node, or what stands in it alone, as HTML (WHATWG HTML, 13.3). It doesn't flush the writer. The error is
/// the writer's refusal or allocation failure; then a beginning is written.
pub fn serialize<W: ByteWriter, T: Serialize>(
    alloc: Global,
    writer: &mut W,
    node: &T,
    opts: SerializeOpts,
) -> Result<(), SerializeFault>
    ensures ok { OnOk result (Grows (walk_text opts.scripting_enabled opts.traversal_scope (T.node node.now)
        (T.forest node.now)) (W.contents writer.old) (W.contents writer.new)) }
    ensures part { OnErr result (GrowsPart (walk_text opts.scripting_enabled opts.traversal_scope (T.node node.now)
        (T.forest node.now)) (W.contents writer.old) (W.contents writer.new)) }
    ensures stays { W.has_failed writer.old ≡ true → W.has_failed writer.new ≡ true }
    ensures failed { result ≡ Err SerializeFault.Write → W.has_failed writer.new ≡ true }
    ensures kinds { result ≢ Err SerializeFault.NoParent }
{
    let SerializeOpts {
        scripting_enabled,
        traversal_scope,
        create_missing_parent,
    } = opts;
    let scope = traversal_scope.try_clone()?;
    let entries = entry_alone(alloc, opening_entry(scope))?;
    let mut serializer = LentSerializer {
        writer: LentWriter(writer),
        scripting: scripting_enabled,
        makes_parents: create_missing_parent,
        entries,
    };
    let emitted = node.serialize(alloc, &mut serializer, &traversal_scope);
    let LentSerializer {
        writer: LentWriter(_lent),
        scripting: _,
        makes_parents: _,
        entries: _entries,
    } = serializer;
    emitted
}
