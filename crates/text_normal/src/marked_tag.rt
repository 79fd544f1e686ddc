//! The tags of text with markers on it.
use std::alloc::{AllocError, Global};
use text_lines::EqualCopy;

/// The tag of a letter, or the name of the fragment whose marker rides there.
#[derive(Drop, PartialEq, Eq)]
pub(crate) enum MarkedTag<T> {
    /// A letter's tag.
    Plain(T),
    /// The name of a fragment.
    Note(String),
}

impl<T: EqualCopy + Drop> EqualCopy for MarkedTag<T> {
    ghost use Rattle.text_normal.specs.Riders.{Rider};
    ghost use Rattle.text_normal.specs.declared.marked_tag.MarkedTag.TheVariants.{Plain, Note};
    ghost use Rattle.text_normal.specs.MarkedTags.{tag_seen, tags_same, tags_apart};

    ghost Seen = { Rider T.Seen };

    ghost seen = { tag_seen T.seen };

    ghost same = { elim [
      | Plain x ↦ elim [
        | Plain y ↦ λ h. tags_same T.eq T.seen T.same (Plain x) (Plain y) h
        | Note t ↦ λ h. tags_same T.eq T.seen T.same (Plain x) (Note t) h
      ]
      | Note s ↦ elim [
        | Plain y ↦ λ h. tags_same T.eq T.seen T.same (Note s) (Plain y) h
        | Note t ↦ λ h. tags_same T.eq T.seen T.same (Note s) (Note t) h
      ]
    ] };

    ghost apart = { elim [
      | Plain x ↦ elim [
        | Plain y ↦ λ h. tags_apart T.eq T.seen T.apart (Plain x) (Plain y) h
        | Note t ↦ λ h. tags_apart T.eq T.seen T.apart (Plain x) (Note t) h
      ]
      | Note s ↦ elim [
        | Plain y ↦ λ h. tags_apart T.eq T.seen T.apart (Note s) (Plain y) h
        | Note t ↦ λ h. tags_apart T.eq T.seen T.apart (Note s) (Note t) h
      ]
    ] };

    fn copy(&self, alloc: Global) -> Result<MarkedTag<T>, AllocError> {
        match self {
            MarkedTag::Plain(tag) => Ok(MarkedTag::Plain(tag.copy(alloc)?)),
            MarkedTag::Note(name) => Ok(MarkedTag::Note(String::from_str(alloc, name.as_str())?)),
        }
    }
}
