//! A child with many siblings, in any sink.
ghost use Rattle.std.specs.Prelude.{◌≡◌, IfOk, OnOk};
ghost use Rattle.tree_forest.specs.Conditions.{IsPlace};
ghost use Rattle.tree_forest.specs.Forest.{page_alone};
ghost use Rattle.tree_forest.specs.Orders.{IsForest};
ghost use Rattle.tree_forest.specs.Places.{before};

use html_lexemes::{ParseFault, Text};
use std::alloc::Global;
use tree_forest::{
    NodeOrText, TreeSink, a_page_alone_is_a_forest, making_keeps_a_forest, putting_keeps_a_forest,
    what_was_made_may_be_put, where_children_stand,
};

/// A comment below the document, and others right before it: one, so many without words, and another.
pub(crate) fn crowd<S: TreeSink>(alloc: Global, sink: &mut S, count: u32) -> Result<(), ParseFault>
    requires { S.view.forest sink.old ≡ page_alone }
{
    let last = begin(alloc, sink)?;
    put_remark(alloc, sink, last, "first")?;
    put_remarks(alloc, sink, last, count)?;
    put_remark(alloc, sink, last, "after")
}

fn begin<S: TreeSink>(alloc: Global, sink: &mut S) -> Result<S::Handle, ParseFault>
    requires { S.view.forest sink.old ≡ page_alone }
    ensures { IfOk result (λ last. IsForest (S.view.forest sink.new) × IsPlace (before (S.view.number last))
        (S.view.forest sink.new)) }
{
    a_page_alone_is_a_forest();
    making_keeps_a_forest();
    putting_keeps_a_forest();
    what_was_made_may_be_put();
    let document = sink.get_document();
    let last = sink.create_comment(Text::from_str(alloc, "last")?)?;
    sink.append(document, NodeOrText::AppendNode(last))?;
    Ok(last)
}

fn put_remarks<S: TreeSink>(
    alloc: Global,
    sink: &mut S,
    last: S::Handle,
    count: u32,
) -> Result<(), ParseFault>
    requires { IsForest (S.view.forest sink.old) × IsPlace (before (S.view.number last)) (S.view.forest sink.old) }
    ensures { OnOk result (IsForest (S.view.forest sink.new) × IsPlace (before (S.view.number last))
        (S.view.forest sink.new)) }
{
    'remarks: for _ in 0..count {
        put_remark(alloc, sink, last, "")?;
    }
    Ok(())
}

// what was a child stays one
fn put_remark<S: TreeSink>(
    alloc: Global,
    sink: &mut S,
    last: S::Handle,
    text: &str,
) -> Result<(), ParseFault>
    requires { IsForest (S.view.forest sink.old) × IsPlace (before (S.view.number last)) (S.view.forest sink.old) }
    ensures { OnOk result (IsForest (S.view.forest sink.new) × IsPlace (before (S.view.number last))
        (S.view.forest sink.new)) }
{
    making_keeps_a_forest();
    putting_keeps_a_forest();
    what_was_made_may_be_put();
    where_children_stand();
    let remark = sink.create_comment(Text::from_str(alloc, text)?)?;
    sink.append_before_sibling(last, NodeOrText::AppendNode(remark))
}
