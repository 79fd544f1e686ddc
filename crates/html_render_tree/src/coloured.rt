//! A render tree as text with what a map makes of annotations, such as the colours of a terminal.
ghost use Rattle.std.specs.Prelude.{◌≡◌, ◌≢◌, ◌⊎◌, ◌<◌, ◌++◌, ◌∷◌, [], Err, IfOk, List, None, OnOk, Some, map};
ghost use Rattle.std.specs.Prelude.{string_bytes, ℕ};
ghost use Rattle.block_renderer.specs.Seen.{IsTagging, marking, tags_seen};
ghost use Rattle.html_render_tree.specs.Coloured.{AreColoured, AreColouredLines, Colours};
ghost use Rattle.html_render_tree.specs.PageLines.{page_lines};
ghost use Rattle.html_render_tree.specs.Settings.{setting_of};
ghost use Rattle.render_conversion.specs.declared.error.RenderError.TheVariants as errors;
ghost use Rattle.text_lines.specs.Tagged.{line_items, line_strings};

use crate::config::RenderConfig;
use render_conversion::RenderError;
use render_values::RenderTree;
use std::alloc::{AllocError, Global};
use text_decorators::TextDecorator;
use text_lines::TaggedLine;

impl<D: TextDecorator + Drop> RenderConfig<D> {
    /// The text of a render tree: of each line what `colour_map` makes of its strings, each with its annotations, and
    /// a line end. The map is to pass an allocation failure on. Refused as `render_to_lines`.
    pub fn render_coloured<F: Fn(&[D::Annotation], &str) -> Result<String, AllocError>>(
        &self,
        alloc: Global,
        tree: RenderTree,
        width: usize,
        colour_map: F,
    ) -> Result<String, RenderError>
        requires { F.IsAlwaysCallable colour_map }
        ensures text { IfOk result (λ text. (lines : List _) × ((tag : _) → IsTagging D.Annotation.seen D.view tag
            → page_lines (marking D.view tag) D.Annotation.seen D.view.closes (setting_of D.view self.now) width tree
            ≡ Some (map (line_items (tags_seen D.Annotation.seen)) lines)) × AreColouredLines (Colours F.Fn colour_map)
            lines (string_bytes text)) }
        ensures wide { IfOk result (λ text. 0 < width) }
        ensures narrow { result ≡ Err errors.TooNarrow → (width ≡ 0) ⊎ ((tag : _) → IsTagging D.Annotation.seen D.view
            tag → page_lines (marking D.view tag) D.Annotation.seen D.view.closes (setting_of D.view self.now) width
            tree ≡ None) }
        ensures kinds { result ≢ Err errors.Fail }
    {
        let lines = self.render_to_lines(alloc, tree, width)?;
        Ok(coloured(alloc, lines.as_slice(), &colour_map)?)
    }
}

/// What a map makes of lines.
fn coloured<T: Drop, F: Fn(&[T], &str) -> Result<String, AllocError>>(
    alloc: Global,
    lines: &[TaggedLine<Vec<T>>],
    colour_map: &F,
) -> Result<String, AllocError>
    requires { F.IsAlwaysCallable colour_map.now }
    ensures { IfOk result (λ text. AreColouredLines (Colours F.Fn colour_map.now) lines.now (string_bytes text)) }
{
    let mut text = String::new(alloc);
    let mut rest = lines;
    'lines: while let Some((line, others)) = rest.split_first() {
        push_line(&mut text, line, colour_map)?;
        rest = others;
    }
    Ok(text)
}

/// Adds what a map makes of a line, and a line end.
fn push_line<T: Drop, F: Fn(&[T], &str) -> Result<String, AllocError>>(
    text: &mut String,
    line: &TaggedLine<Vec<T>>,
    colour_map: &F,
) -> Result<(), AllocError>
    requires { F.IsAlwaysCallable colour_map.now }
    ensures { OnOk result ((made : List ℕ) × (string_bytes text.new ≡ string_bytes text.old ++ made ++ 10 ∷ [])
        × AreColoured (Colours F.Fn colour_map.now) (line_strings line.now) made) }
{
    'strings: for string in line.tagged_strings() {
        let made = colour_map(string.tag.as_slice(), string.s.as_str())?;
        text.push_str(made.as_str())?;
    }
    text.push_str("\n")?;
    Ok(())
}
