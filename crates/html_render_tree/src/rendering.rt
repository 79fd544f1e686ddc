//! A render tree as lines.
ghost use Rattle.std.specs.Prelude.{◌≡◌, ◌≢◌, [], Err, IfOk, None, Some, false, true};
ghost use Rattle.block_renderer.specs.Seen.{IsTagging, has_failed, marking, sub_of};
ghost use Rattle.html_render_tree.specs.PageLines.{begun_as, laid_as, prefix_columns, sizing_by};
ghost use Rattle.layout_values.specs.Sizing.{Sizing, all_fits};
ghost use Rattle.layout_tables.specs.Seen.{all_fits_seen};
ghost use Rattle.render_sizes.specs.Asked.{AreMeasured};
ghost use Rattle.render_conversion.specs.declared.error.RenderError.TheVariants as errors;
ghost use Rattle.render_sizes.specs.Extents.{Measure, extents, measure_of};
ghost use Rattle.block_trait.specs.Renderers.{new_sub};
ghost use Rattle.text_block_renderer.specs.Parts.{depth_of};
ghost use Rattle.text_block_renderer.specs.SeenParts.{parts_of};

use crate::prefixes::DecoratorPrefixes;
use block_renderer::SubRenderer;
use block_trait::RenderOptions;
use column_fits::ColumnFit;
use layout_walk::lay_tree;
use render_conversion::RenderError;
use render_sizes::{Extent, Prefixes, asked_extents, measured};
use render_values::RenderTree;
use std::alloc::{AllocError, Global};
use table_fits::table_fits;
use text_block_renderer::TextRenderer;
use text_decorators::TextDecorator;
use text_pieces::BlockError;

// after an allocation failure nothing is called
pub(crate) fn refusal(error: BlockError) -> RenderError
    ensures narrow { result ≡ errors.TooNarrow → error ≡ BlockError.TooNarrow }
    ensures fail { result ≢ errors.Fail }
{
    match error {
        BlockError::TooNarrow => RenderError::TooNarrow,
        BlockError::Memory | BlockError::Failed => RenderError::Memory,
    }
}

// an empty renderer, which keeps annotations or doesn't
fn begun<D: TextDecorator + Drop>(
    alloc: Global,
    width: usize,
    options: RenderOptions,
    decorator: D,
    keeps: bool,
) -> SubRenderer<D>
    ensures sub { sub_of D.Annotation.seen D.view.held result ≡ begun_as keeps
        (new_sub width options (D.view.held decorator) []) }
    ensures works { has_failed result ≡ false }
{
    if keeps {
        return SubRenderer::new(alloc, width, options, decorator);
    }
    SubRenderer::without_annotations(alloc, width, options, decorator)
}

// the columns of each node's value, where columns of tables are fitted, and else those that a layout asks for
fn sizes_of<P: Prefixes>(
    alloc: Global,
    prefixes: &P,
    options: &RenderOptions,
    min_wrap_width: usize,
    tree: &RenderTree,
) -> Result<Vec<Extent>, AllocError>
    ensures measured { IfOk result (λ sizes. AreMeasured (measure_of min_wrap_width (P.columns prefixes.now)) tree.now
        sizes.items) }
    ensures whole { options.now.fit_columns ≡ true → IfOk result (λ sizes. sizes.items
        ≡ extents (measure_of min_wrap_width (P.columns prefixes.now)) tree.now) }
{
    if options.fit_columns {
        measured(alloc, prefixes, min_wrap_width, tree)
    } else {
        asked_extents(alloc, prefixes, min_wrap_width, tree)
    }
}

// what the columns of each table ask for, where they are fitted
fn fits_of<P: Prefixes>(
    alloc: Global,
    prefixes: &P,
    options: &RenderOptions,
    tree: &RenderTree,
    sizes: &[Extent],
) -> Result<Option<Vec<Vec<ColumnFit>>>, AllocError>
    ghost w: { Measure }
    requires prefixes { w.prefixes ≡ P.columns prefixes.now }
    requires sized { options.now.fit_columns ≡ true → sizes.now ≡ extents w tree.now }
    ensures { IfOk result (λ fits. all_fits_seen fits ≡ all_fits (sizing_by options.now w) tree.now) }
{
    if !options.fit_columns {
        return Ok(None);
    }
    let fits = table_fits(alloc, options, prefixes, tree, sizes)?;
    Ok(Some(fits))
}

// a render tree laid out at a width, which is not 0, in renderers that keep annotations or don't
pub(crate) fn laid<D: TextDecorator + Drop>(
    alloc: Global,
    decorator: D,
    options: RenderOptions,
    min_wrap_width: usize,
    tree: &RenderTree,
    width: usize,
    keeps: bool,
) -> Result<TextRenderer<D>, RenderError>
    ghost w: { Sizing }
    requires { w ≡ sizing_by options
        (measure_of min_wrap_width (prefix_columns (D.view.text (D.view.held decorator)))) }
    ensures laid { IfOk result (λ text. (tag : _) → IsTagging D.Annotation.seen D.view tag
        → laid_as keeps (marking D.view tag)
        (record { options = options; min_wrap = min_wrap_width; held = D.view.held decorator }) width tree.now
        ≡ Some (parts_of D.Annotation.seen D.view.held text)) }
    ensures whole { IfOk result (λ text. depth_of (parts_of D.Annotation.seen D.view.held text) ≡ 1) }
    ensures narrow { result ≡ Err errors.TooNarrow → (tag : _) → IsTagging D.Annotation.seen D.view tag
        → laid_as keeps (marking D.view tag)
        (record { options = options; min_wrap = min_wrap_width; held = D.view.held decorator }) width tree.now ≡ None }
    ensures kinds { result ≢ Err errors.Fail }
{
    let prefixes = DecoratorPrefixes::new(alloc, decorator);
    let sizes = sizes_of(alloc, &prefixes, &options, min_wrap_width, tree)?;
    let fits = fits_of(alloc, &prefixes, &options, tree, sizes.as_slice())?;
    let sub = begun(alloc, width, options, prefixes.into_decorator(), keeps);
    let text = TextRenderer::new(alloc, sub);
    match lay_tree(alloc, tree, sizes.as_slice(), &fits, text) {
        Ok(text) => Ok(text),
        Err(error) => Err(refusal(error)),
    }
}
