//! Pages as text with what a map makes of annotations, such as the colours of a terminal.
ghost use Rattle.std.specs.Prelude.{◌≡◌, ◌⊎◌, ◌<◌, List, Err, IfErr, IfOk, map, string_bytes};
ghost use Rattle.block_renderer.specs.Seen.{IsTagging, marking, tags_seen};
ghost use Rattle.html_render_tree.specs.Coloured.{AreColouredLines, Colours};
ghost use Rattle.html_render_tree.specs.PageLines.{page_lines};
ghost use Rattle.page_config.specs.Settings.{page_setting};
ghost use Rattle.page_config.specs.declared.error.Error.TheVariants as errors;
ghost use Rattle.text_lines.specs.Tagged.{line_items};

use crate::config::Config;
use crate::error::Error;
use html_render_tree::RenderTree;
use std::alloc::{AllocError, Global};
use text_decorators::TextDecorator;

impl<D: TextDecorator + Drop> Config<D> {
    /// The text of a render tree: of each line what `colour_map` makes of its strings, each with its annotations, and
    /// a line end. The map is to pass an allocation failure on. Refused as `render_to_lines`.
    pub fn render_coloured<F: Fn(&[D::Annotation], &str) -> Result<String, AllocError>>(
        &self,
        alloc: Global,
        tree: RenderTree,
        width: usize,
        colour_map: F,
    ) -> Result<String, Error>
        requires { F.IsAlwaysCallable colour_map }
        ensures text { IfOk result (λ text. (lines : List _) × ((tag : _) → IsTagging D.Annotation.seen D.view tag
            → page_lines (marking D.view tag) D.Annotation.seen D.view.closes (page_setting D.view self.now).rendering
            width tree ≡ Some (map (line_items (tags_seen D.Annotation.seen)) lines)) × AreColouredLines
            (Colours F.Fn colour_map) lines (string_bytes text)) }
        ensures wide { IfOk result (λ text. 0 < width) }
        ensures narrow { result ≡ Err errors.TooNarrow → (width ≡ 0) ⊎ ((tag : _) → IsTagging D.Annotation.seen D.view
            tag → page_lines (marking D.view tag) D.Annotation.seen D.view.closes
            (page_setting D.view self.now).rendering width tree ≡ None) }
        ensures kinds { IfErr result (λ e. (e ≡ errors.TooNarrow) ⊎ (e ≡ errors.Memory)) }
    {
        Ok(
            self.rendering
                .render_coloured(alloc, tree, width, colour_map)?,
        )
    }
}
