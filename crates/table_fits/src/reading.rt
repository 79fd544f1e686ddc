//! The flows of cells, as they are read.
ghost use Rattle.std.specs.Prelude.{◌≡◌, ◌∷◌, [], IfOk, List, Option, chars};
ghost use Rattle.block_trait.specs.declared.options.RenderOptions.{RenderOptions as SeenOptions};
ghost use Rattle.block_trait.specs.Renderers.{image_title};
ghost use Rattle.content_widths.specs.Flows.{FlowItem, block, no_columns, text as text_item};
ghost use Rattle.table_fits.specs.Flowing.{following, image_flow, leading};
ghost use Rattle.table_fits.specs.Pass.{added, nothing_passed, nothing_read};
ghost use Rattle.table_fits.specs.Seen.{FlowIs, IsPassing, table_seen};

use block_trait::{RenderOptions, shown_title};
use column_fits::ColumnFit;
use content_widths::{ContentWidths, FlowWidths};
use render_values::RenderInfo;
use std::alloc::{AllocError, Global};
use table_grid::Cell;
use text_pieces::WhiteSpace;

/// A table as far as it was read.
#[derive(Drop)]
pub(crate) struct OpenTable {
    /// How many rows have begun.
    pub(crate) rows: usize,
    /// The cells in them.
    pub(crate) cells: Vec<Cell>,
    /// What each asks for.
    pub(crate) widths: Vec<ContentWidths>,
}

/// What was read of the values so far.
#[derive(Drop)]
pub(crate) struct Reading {
    /// The flow around, in a cell.
    pub(crate) flow: Option<FlowWidths>,
    /// The table around.
    pub(crate) table: OpenTable,
    /// What the columns of each value ask for.
    pub(crate) fits: Vec<Vec<ColumnFit>>,
}

/// The columns of a line break.
pub(crate) fn no_columns() -> ContentWidths
    ensures { result ≡ no_columns }
{
    ContentWidths {
        narrowest: 0,
        widest: 0,
    }
}

impl OpenTable {
    pub(crate) fn new(alloc: Global) -> OpenTable
        ensures { table_seen result ≡ nothing_read }
    {
        OpenTable {
            rows: 0,
            cells: Vec::new(alloc),
            widths: Vec::new(alloc),
        }
    }
}

impl Reading {
    /// Nothing of the values was read; `values` is how many there are. The error is allocation failure alone.
    pub(crate) fn new(alloc: Global, values: usize) -> Result<Reading, AllocError>
        ensures { (options : SeenOptions) → IfOk result (λ r. IsPassing options r nothing_passed) }
    {
        Ok(Reading {
            flow: None,
            table: OpenTable::new(alloc),
            fits: Vec::with_capacity(alloc, values)?,
        })
    }

    pub(crate) fn into_fits(self) -> Vec<Vec<ColumnFit>>
        ensures { result ≡ self.fits }
    {
        let Reading {
            flow: _,
            table: _,
            fits,
        } = self;
        fits
    }
}

/// A text follows in a flow, if there is one.
pub(crate) fn add_text(flow: &mut Option<FlowWidths>, mode: WhiteSpace, text: &str)
    ensures { (options : SeenOptions) (items : Option (List FlowItem)) → FlowIs options flow.old items
        → FlowIs options flow.new (added (text_item mode (chars text.now) ∷ []) items) }
{
    if let Some(flow) = flow {
        flow.add_text(mode, text);
    }
}

/// A block follows in a flow, if there is one.
pub(crate) fn add_block(flow: &mut Option<FlowWidths>, widths: ContentWidths)
    ensures { (options : SeenOptions) (items : Option (List FlowItem)) → FlowIs options flow.old items
        → FlowIs options flow.new (added (block widths ∷ []) items) }
{
    if let Some(flow) = flow {
        flow.add_block(widths);
    }
}

/// What a value adds to a flow before what stands in it, if there is a flow.
pub(crate) fn lead(
    flow: &mut Option<FlowWidths>,
    options: &RenderOptions,
    mode: WhiteSpace,
    info: &RenderInfo,
)
    ensures { (items : Option (List FlowItem)) → FlowIs options.now flow.old items
        → FlowIs options.now flow.new (added (leading options.now mode info.now) items) }
{
    match info {
        RenderInfo::Text(text) => add_text(flow, mode, text.as_str()),
        RenderInfo::Image { source, title } => {
            lead_image(flow, options, mode, source.as_str(), title.as_str())
        }
        RenderInfo::Link(_) => add_text(flow, mode, "["),
        RenderInfo::Superscript => add_text(flow, mode, "^{"),
        RenderInfo::Break
        | RenderInfo::Rule
        | RenderInfo::Block
        | RenderInfo::Division
        | RenderInfo::Preformatted
        | RenderInfo::Bullets
        | RenderInfo::Numbers(_)
        | RenderInfo::Descriptions
        | RenderInfo::Term => add_block(flow, no_columns()),
        _ => {}
    }
}

fn lead_image(
    flow: &mut Option<FlowWidths>,
    options: &RenderOptions,
    mode: WhiteSpace,
    source: &str,
    title: &str,
)
    ensures { (items : Option (List FlowItem)) → FlowIs options.now flow.old items
        → FlowIs options.now flow.new (added
        (image_flow mode (image_title options.now.img_mode (chars source.now) (chars title.now))) items) }
{
    if let Some(title) = shown_title(options.img_mode, source, title) {
        add_text(flow, mode, "[");
        add_text(flow, mode, title);
        add_text(flow, mode, "]");
    }
}

/// What a value adds to a flow after what stands in it, if there is a flow.
pub(crate) fn trail(
    flow: &mut Option<FlowWidths>,
    options: &RenderOptions,
    mode: WhiteSpace,
    info: &RenderInfo,
)
    ensures { (items : Option (List FlowItem)) → FlowIs options.now flow.old items
        → FlowIs options.now flow.new (added (following options.now mode info.now) items) }
{
    match info {
        RenderInfo::Link(_) => {
            if options.include_link_footnotes {
                // The number of a footnote has up to three digits.
                add_text(flow, mode, "][000]");
            } else {
                add_text(flow, mode, "]");
            }
        }
        RenderInfo::Superscript => add_text(flow, mode, "}"),
        RenderInfo::Block | RenderInfo::Division | RenderInfo::Preformatted | RenderInfo::Term =>
            add_block(flow, no_columns()),
        _ => {}
    }
}
