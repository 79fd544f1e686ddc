//! Kinds of meanings.
ghost use Rattle.std.specs.Prelude.{◌≡◌, IfOk, option_map};
ghost use Rattle.render_conversion.specs.Kinds.{holds, leaf, means, nothing, pictured};
ghost use Rattle.render_conversion.specs.Meanings.{or_empty};

use crate::inner::Inner;
use crate::place::Place;
use html_lexemes::Text;
use render_values::{Condition, RenderInfo, Title};
use std::alloc::{AllocError, Global};

/// What a node means.
#[derive(Debug, Drop)]
pub struct Meaning {
    /// The kind of its value.
    pub info: RenderInfo,
    /// When it has it.
    pub condition: Condition,
    /// What stands in it.
    pub inner: Inner,
}

pub(crate) fn means(info: RenderInfo, condition: Condition, inner: Inner) -> Meaning
    ensures { result ≡ means info condition inner }
{
    Meaning {
        info,
        condition,
        inner,
    }
}

pub(crate) fn nothing() -> Meaning
    ensures { result ≡ nothing }
{
    means(
        RenderInfo::Nothing,
        Condition::Never,
        Inner::Children(Place::Nowhere),
    )
}

pub(crate) fn leaf(info: RenderInfo) -> Meaning
    ensures { result ≡ leaf info }
{
    means(info, Condition::Always, Inner::Children(Place::Nowhere))
}

pub(crate) fn holds(info: RenderInfo) -> Meaning
    ensures { result ≡ holds info }
{
    means(info, Condition::Always, Inner::Children(Place::Flow))
}

/// A copy of a text, or the empty one. The error is allocation failure alone.
pub(crate) fn copied(alloc: Global, text: Option<&Text>) -> Result<Text, AllocError>
    ensures { IfOk result (λ copy. copy ≡ or_empty (option_map (λ t. t.now) text.entry)) }
{
    match text {
        Some(text) => text.try_clone(),
        None => Text::from_str(alloc, ""),
    }
}

/// An image without a source, where there is a title. The error is allocation failure alone.
pub(crate) fn pictured(alloc: Global, title: Option<Text>) -> Result<Meaning, AllocError>
    ensures { IfOk result (λ m. m ≡ pictured title) }
{
    match title {
        Some(title) => {
            let source = copied(alloc, None)?;
            let title = Title::new(alloc, title)?;
            Ok(leaf(RenderInfo::Image { source, title }))
        }
        None => Ok(nothing()),
    }
}
