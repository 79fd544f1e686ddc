//! Titles of images.
ghost use Rattle.std.specs.Prelude.{◌≡◌, Option, chars};
ghost use Rattle.std.specs.Option.{option_map};
ghost use Rattle.block_trait.specs.Renderers.{image_title, file_name};

use crate::options::ImageRenderMode;
use text_pieces::cut_at;

/// The title of an image, or what stands for an empty one.
pub fn shown_title<'a>(mode: ImageRenderMode, src: &'a str, title: &'a str) -> Option<&'a str>
    ensures { option_map (λ t. chars t.now) result ≡ image_title mode (chars src.now) (chars title.now) }
{
    if !title.is_empty() {
        return Some(title);
    }
    match mode {
        ImageRenderMode::IgnoreEmpty => None,
        ImageRenderMode::ShowAlways => Some(title),
        ImageRenderMode::Replace(name) => Some(name),
        ImageRenderMode::Filename => Some(file_name(src)),
    }
}

/// What stands after the last slash.
fn file_name(src: &str) -> &str
    ensures { chars result.now ≡ file_name (chars src.now) }
{
    let mut name = src;
    while let Some((_front, trailing)) = cut_at(name, '/') {
        name = trailing;
    }
    name
}
