//! What of a value matters to the flow around it.
ghost use Rattle.std.specs.Prelude.{◌≡◌, IfOk};
ghost use Rattle.render_sizes.specs.RowCells.{rows_emitted};
ghost use Rattle.render_sizes.specs.Extents.{Measure, number};
ghost use Rattle.render_values.specs.Arena.{IsFlat, values_of};
ghost use Rattle.block_trait.specs.declared.options.RenderOptions.{RenderOptions};
ghost use Rattle.table_fits.specs.Flowing.{fitting, items_prefix, mode_in, prefix_of, standing};
ghost use Rattle.table_fits.specs.Pass.{enters, inside_of, is_along, is_own, on_page};

use render_sizes::{Prefixes, number};
use render_values::{Head, RenderInfo, RenderNode};
use std::alloc::AllocError;
use text_pieces::WhiteSpace;

/// How what stands in a value flows.
#[derive(Clone, Copy, Debug, PartialEq, Eq)]
pub enum Standing {
    /// Along with the text around it.
    Along,
    /// On lines of its own, after a prefix.
    AfterPrefix,
    /// In the cells of a table.
    Table,
    /// In a cell, on lines of its own.
    Cell,
}

/// What is said around a value of what stands there.
#[derive(Clone, Copy, Debug, PartialEq, Eq)]
pub struct Around {
    /// The mode of white space.
    pub mode: WhiteSpace,
    /// The columns before each item, in a list.
    pub prefix: Option<usize>,
    /// Whether it stands among the rows and cells of a table.
    pub among_rows: bool,
}

impl Around {
    /// Around the values of a page.
    pub(crate) fn page() -> Around
        ensures { result ≡ on_page }
    {
        Around {
            mode: WhiteSpace::Normal,
            prefix: None,
            among_rows: false,
        }
    }
}

pub(crate) fn standing_of(info: &RenderInfo) -> Standing
    ensures { result ≡ standing info.now }
{
    match info {
        RenderInfo::Heading(_) | RenderInfo::Quote | RenderInfo::Details => Standing::AfterPrefix,
        RenderInfo::Table => Standing::Table,
        RenderInfo::TableCell { .. } => Standing::Cell,
        _ => Standing::Along,
    }
}

/// Whether a value flows along with the text around it.
pub(crate) fn is_along(standing: Standing) -> bool
    ensures { result ≡ is_along standing }
{
    matches!(standing, Standing::Along)
}

/// Whether a value that flows so, an item where there is a prefix, has a flow of its own.
pub(crate) fn is_own(prefix: Option<usize>, standing: Standing) -> bool
    ensures { result ≡ is_own prefix standing }
{
    match standing {
        Standing::Along => prefix.is_some(),
        _ => true,
    }
}

/// The mode of white space in a value: its own, else that around it.
pub fn mode_in(mode: WhiteSpace, head: &Head) -> WhiteSpace
    ensures { result ≡ mode_in mode head.now }
{
    head.style.white_space.unwrap_or(mode)
}

/// The columns of the prefix after which a value's lines stand. The error is allocation failure alone.
pub(crate) fn prefix_of<P: Prefixes>(prefixes: &P, info: &RenderInfo) -> Result<usize, AllocError>
    ensures { (options : RenderOptions) (w : Measure) → w.prefixes ≡ P.columns prefixes.now
        → IfOk result (λ n. n ≡ prefix_of (fitting options w) info.now) }
{
    match info {
        RenderInfo::Heading(level) => prefixes.heading(*level),
        RenderInfo::Quote => prefixes.quote(),
        _ => Ok(2),
    }
}

fn items_prefix<P: Prefixes>(
    prefixes: &P,
    info: &RenderInfo,
    inside: &[RenderNode],
) -> Result<Option<usize>, AllocError>
    requires flat { IsFlat inside.now }
    ensures { (options : RenderOptions) (w : Measure) → w.prefixes ≡ P.columns prefixes.now
        → IfOk result (λ n. n ≡ items_prefix (fitting options w) info.now (number (values_of inside.now))) }
{
    match info {
        RenderInfo::Bullets => Ok(Some(prefixes.bullet()?)),
        RenderInfo::Numbers(first) => Ok(Some(prefixes.numbers(*first, number(inside))?)),
        _ => Ok(None),
    }
}

fn enters(among_rows: bool, info: &RenderInfo) -> bool
    ensures { result ≡ enters among_rows info.now }
{
    match info {
        RenderInfo::Table => true,
        RenderInfo::TableGroup | RenderInfo::TableRow => among_rows,
        _ => false,
    }
}

/// What is said inside of a value of what stands there. The error is allocation failure alone.
pub(crate) fn inside_of<P: Prefixes>(
    prefixes: &P,
    around: Around,
    head: &Head,
    inside: &[RenderNode],
) -> Result<Around, AllocError>
    requires flat { IsFlat inside.now }
    ensures { (options : RenderOptions) (w : Measure) → w.prefixes ≡ P.columns prefixes.now
        → IfOk result (λ a. a ≡ inside_of (fitting options w) around head.now (number (values_of inside.now))) }
{
    Ok(Around {
        mode: mode_in(around.mode, head),
        prefix: items_prefix(prefixes, &head.info, inside)?,
        among_rows: enters(around.among_rows, &head.info),
    })
}

/// How many rows begin with a value.
pub(crate) fn rows_emitted(info: &RenderInfo) -> usize
    ensures { result ≡ rows_emitted info.now }
{
    match info {
        RenderInfo::TableRow => 1,
        _ => 0,
    }
}
