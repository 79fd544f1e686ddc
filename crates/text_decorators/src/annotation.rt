ghost use Rattle.std.specs.Prelude.{◌≡◌, IfOk};

use crate::colour::Colour;
use crate::default_marks::literal;
use std::alloc::{AllocError, Global};
use text_lines::EqualCopy;

/// What rich text notes beside a text.
#[derive(Debug, Default, Drop, PartialEq, Eq)]
pub enum RichAnnotation {
    /// Nothing.
    #[default]
    Default,
    /// A link's text; its target.
    Link(String),
    /// An image's text; its source.
    Image(String),
    /// Emphasis.
    Emphasis,
    /// Strong text.
    Strong,
    /// Struck text.
    Strikeout,
    /// Code.
    Code,
    /// Preformatted text; whether its line was wrapped before it.
    Preformat(bool),
    /// Text of a colour.
    Colour(Colour),
    /// Text on a background of a colour.
    BgColour(Colour),
}

impl RichAnnotation {
    ghost use Rattle.text_decorators.specs.Annotations.{rich_tag};

    /// An equal annotation. The error is allocation failure alone.
    pub fn try_clone(&self, alloc: Global) -> Result<RichAnnotation, AllocError>
        ensures { IfOk result (λ copy. rich_tag copy ≡ rich_tag self.now) }
    {
        match self {
            RichAnnotation::Default => Ok(RichAnnotation::Default),
            RichAnnotation::Link(url) => {
                let url = literal(alloc, url.as_str())?;
                Ok(RichAnnotation::Link(url))
            }
            RichAnnotation::Image(src) => {
                let src = literal(alloc, src.as_str())?;
                Ok(RichAnnotation::Image(src))
            }
            RichAnnotation::Emphasis => Ok(RichAnnotation::Emphasis),
            RichAnnotation::Strong => Ok(RichAnnotation::Strong),
            RichAnnotation::Strikeout => Ok(RichAnnotation::Strikeout),
            RichAnnotation::Code => Ok(RichAnnotation::Code),
            RichAnnotation::Preformat(further) => Ok(RichAnnotation::Preformat(*further)),
            RichAnnotation::Colour(colour) => Ok(RichAnnotation::Colour(*colour)),
            RichAnnotation::BgColour(colour) => Ok(RichAnnotation::BgColour(*colour)),
        }
    }
}

impl EqualCopy for RichAnnotation {
    ghost use Rattle.text_decorators.specs.Annotations.{RichTag, rich_tag};
    ghost use Rattle.text_decorators.specs.AnnotationCopies.{rich_tags-same, rich_tags-apart};

    ghost Seen = { RichTag };

    ghost seen = { rich_tag };

    ghost same = { rich_tags-same };

    ghost apart = { rich_tags-apart };

    fn copy(&self, alloc: Global) -> Result<RichAnnotation, AllocError> {
        self.try_clone(alloc)
    }
}
