ghost use Rattle.std.specs.Prelude.{◌≡◌, chars, unwrap_or, IfOk};
ghost use Rattle.text_pieces.specs.Sources.{piece_sources, sourced, text_sources, wrap_seen};
ghost use Rattle.std.specs.Option.{option_map};

use std::alloc::{AllocError, Global};
use text_lines::{EqualCopy, roomy_copy};

/// A part of a text that is laid out: characters with their tags, or a marker between them.
#[derive(Drop)]
pub enum Piece<T> {
    /// Characters.
    Text(TextPiece<T>),
    /// The start of the fragment of that name.
    Fragment(String),
}

impl<T: EqualCopy + Drop> Piece<T> {
    /// An equal piece, in the memory of this one. The error is allocation failure alone.
    pub fn try_clone(&self) -> Result<Piece<T>, AllocError>
        ensures { IfOk result (λ copy. piece_sources T.seen copy ≡ piece_sources T.seen self.now) }
    {
        match self {
            Piece::Text(piece) => Ok(Piece::Text(piece.try_clone()?)),
            Piece::Fragment(name) => {
                let name = String::from_str(*name.allocator(), name.as_str())?;
                Ok(Piece::Fragment(name))
            }
        }
    }
}

/// Characters with one tag, and the one that they have on a preserved line from where it was wrapped.
#[derive(Drop)]
pub struct TextPiece<T> {
    /// The characters.
    pub text: String,
    /// Their tag.
    pub main_tag: T,
    /// Their tag where a preserved line was wrapped, if that is another.
    pub wrap_tag: Option<T>,
}

impl<T: EqualCopy> TextPiece<T> {
    /// The characters' tag where a preserved line was wrapped.
    pub fn wrap_tag_or_main(&self) -> &T
        ensures { T.seen result.now ≡ wrap_seen T.seen self.now }
    {
        match &self.wrap_tag {
            Some(tag) => tag,
            None => &self.main_tag,
        }
    }
}

impl<T: EqualCopy + Drop> TextPiece<T> {
    /// A piece of that text. The error is allocation failure alone.
    pub fn new(
        alloc: Global,
        text: &str,
        main_tag: &T,
        wrap_tag: &T,
    ) -> Result<TextPiece<T>, AllocError>
        ensures { IfOk result (λ piece. text_sources T.seen piece
            ≡ sourced (chars text.now) (T.seen main_tag.now) (T.seen wrap_tag.now)) }
    {
        Ok(TextPiece {
            text: roomy_copy(alloc, text)?,
            main_tag: main_tag.copy(alloc)?,
            wrap_tag: other_tag(alloc, main_tag, wrap_tag)?,
        })
    }

    /// An equal piece, in the memory of this one. The error is allocation failure alone.
    pub fn try_clone(&self) -> Result<TextPiece<T>, AllocError>
        ensures { IfOk result (λ copy. text_sources T.seen copy ≡ text_sources T.seen self.now) }
    {
        let alloc = *self.text.allocator();
        let wrap_tag = match &self.wrap_tag {
            Some(tag) => Some(tag.copy(alloc)?),
            None => None,
        };
        Ok(TextPiece {
            text: String::from_str(alloc, self.text.as_str())?,
            main_tag: self.main_tag.copy(alloc)?,
            wrap_tag,
        })
    }
}

// The second tag, if it is another than the first.
fn other_tag<T: EqualCopy + Drop>(
    alloc: Global,
    main_tag: &T,
    wrap_tag: &T,
) -> Result<Option<T>, AllocError>
    ensures { IfOk result (λ other. unwrap_or (option_map T.seen other) (T.seen main_tag.now) ≡ T.seen wrap_tag.now) }
{
    if *main_tag == *wrap_tag {
        Ok(None)
    } else {
        Ok(Some(wrap_tag.copy(alloc)?))
    }
}
