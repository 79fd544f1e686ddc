//! Other blocks in the block of a renderer.
ghost use Rattle.std.specs.Prelude.{◌≡◌, ◌⊎◌, None, Some, [], map, chars, Err, IfOk, IfErr, OnOk};
ghost use Rattle.std.specs.Option.{option_map};
ghost use Rattle.text_cells.specs.Cells.{cell_of};
ghost use Rattle.block_trait.specs.Renderers.{cells_of_subs};
ghost use Rattle.block_renderer.specs.Seen.{sub_of, tags_seen};
ghost use Rattle.text_pieces.specs.declared.fault.BlockError.TheVariants as errors;

use crate::sub_renderer::SubRenderer;
use std::alloc::{AllocError, Global};
use text_cells::LineSet;
use text_decorators::TextDecorator;
use text_pieces::BlockError;

impl<D: TextDecorator + Drop> SubRenderer<D> {
    ghost use Rattle.block_trait.specs.Renderers.{add_cells, add_first, add_rows_below, add_sub, append_sub};
    ghost use Rattle.block_trait.specs.Renderers.{cell_of_sub, flush_sub, ruled, slashed};
    ghost use Rattle.block_renderer.specs.Seen.{sub_of, IsJoinedSub};

    /// Adds the lines of another renderer after prefixes.
    pub(crate) fn add_sub(
        &mut self,
        other: SubRenderer<D>,
        first: &str,
        following: &str,
    ) -> Result<(), BlockError>
        ensures kinds { IfErr result (λ e. (e ≡ errors.TooNarrow) ⊎ (e ≡ errors.Memory)) }
        ensures done { OnOk result (add_sub (sub_of D.Annotation.seen D.view.held other) (chars first.now)
            (chars following.now) (sub_of D.Annotation.seen D.view.held self.old)
            ≡ Some (sub_of D.Annotation.seen D.view.held self.new)) }
        ensures narrow { result ≡ Err errors.TooNarrow → add_sub (sub_of D.Annotation.seen D.view.held other)
            (chars first.now) (chars following.now) (sub_of D.Annotation.seen D.view.held self.old) ≡ None }
        ensures joined { IsJoinedSub D.Annotation.seen self.old → IsJoinedSub D.Annotation.seen self.new }
    {
        self.flush()?;
        self.append_sub(other, first, following)
    }

    fn append_sub(
        &mut self,
        other: SubRenderer<D>,
        first: &str,
        following: &str,
    ) -> Result<(), BlockError>
        ensures kinds { IfErr result (λ e. (e ≡ errors.TooNarrow) ⊎ (e ≡ errors.Memory)) }
        ensures done { OnOk result (append_sub (sub_of D.Annotation.seen D.view.held other) (chars first.now)
            (chars following.now) (sub_of D.Annotation.seen D.view.held self.old)
            ≡ Some (sub_of D.Annotation.seen D.view.held self.new)) }
        ensures narrow { result ≡ Err errors.TooNarrow → append_sub (sub_of D.Annotation.seen D.view.held other)
            (chars first.now) (chars following.now) (sub_of D.Annotation.seen D.view.held self.old) ≡ None }
        ensures joined { IsJoinedSub D.Annotation.seen self.old → IsJoinedSub D.Annotation.seen self.new }
    {
        let mut other = other;
        other.flush()?;
        let inner = other.measure();
        let measure = self.measure();
        let lines = other.into_laid_lines();
        self.laid
            .add_block(inner, measure, &self.annotations, first, following, lines)?;
        Ok(())
    }

    /// Adds cells beside one another.
    pub(crate) fn add_cells(
        &mut self,
        cells: Vec<(SubRenderer<D>, usize)>,
        collapse: bool,
    ) -> Result<(), BlockError>
        ensures kinds { IfErr result (λ e. (e ≡ errors.TooNarrow) ⊎ (e ≡ errors.Memory)) }
        ensures done { OnOk result (add_cells (map (λ c. (sub_of D.Annotation.seen D.view.held c.0, c.1)) cells.items)
            collapse (sub_of D.Annotation.seen D.view.held self.old) ≡ Some (sub_of D.Annotation.seen D.view.held
            self.new)) }
        ensures narrow { result ≡ Err errors.TooNarrow → add_cells
            (map (λ c. (sub_of D.Annotation.seen D.view.held c.0, c.1)) cells.items) collapse
            (sub_of D.Annotation.seen D.view.held self.old) ≡ None }
        ensures joined { IsJoinedSub D.Annotation.seen self.old → IsJoinedSub D.Annotation.seen self.new }
    {
        let cells = cells_of_subs(self.alloc(), cells)?;
        let measure = self.measure();
        let draws = self.options.draw_borders;
        self.laid
            .add_row(measure, &self.annotations, draws, collapse, cells)
    }

    /// The renderer's lines as a cell that takes so many rows.
    fn into_cell(self, rows: usize) -> Result<LineSet<Vec<D::Annotation>>, BlockError>
        ensures kinds { IfErr result (λ e. (e ≡ errors.TooNarrow) ⊎ (e ≡ errors.Memory)) }
        ensures cell { IfOk result (λ cell. option_map (cell_of_sub rows)
            (flush_sub (sub_of D.Annotation.seen D.view.held self)) ≡ Some (cell_of (tags_seen D.Annotation.seen)
            cell)) }
        ensures narrow { result ≡ Err errors.TooNarrow → flush_sub (sub_of D.Annotation.seen D.view.held self) ≡ None }
    {
        let mut cell = self;
        cell.flush()?;
        Ok(LineSet {
            width: cell.width,
            rows,
            lines: cell.into_laid_lines(),
        })
    }

    /// Adds cells below one another.
    pub(crate) fn add_rows_below(&mut self, cells: Vec<SubRenderer<D>>) -> Result<(), BlockError>
        ensures kinds { IfErr result (λ e. (e ≡ errors.TooNarrow) ⊎ (e ≡ errors.Memory)) }
        ensures done { OnOk result (add_rows_below (map (sub_of D.Annotation.seen D.view.held) cells.items)
            (sub_of D.Annotation.seen D.view.held self.old) ≡ Some (sub_of D.Annotation.seen D.view.held self.new)) }
        ensures narrow { result ≡ Err errors.TooNarrow → add_rows_below (map (sub_of D.Annotation.seen D.view.held)
            cells.items) (sub_of D.Annotation.seen D.view.held self.old) ≡ None }
        ensures joined { IsJoinedSub D.Annotation.seen self.old → IsJoinedSub D.Annotation.seen self.new }
    {
        self.flush()?;
        self.add_all_below(cells)?;
        self.rule()?;
        Ok(())
    }

    fn add_all_below(&mut self, cells: Vec<SubRenderer<D>>) -> Result<(), BlockError>
        ensures kinds { IfErr result (λ e. (e ≡ errors.TooNarrow) ⊎ (e ≡ errors.Memory)) }
        ensures done { OnOk result (add_first (map (sub_of D.Annotation.seen D.view.held) cells.items)
            (sub_of D.Annotation.seen D.view.held self.old) ≡ Some (sub_of D.Annotation.seen D.view.held self.new)) }
        ensures narrow { result ≡ Err errors.TooNarrow → add_first (map (sub_of D.Annotation.seen D.view.held)
            cells.items) (sub_of D.Annotation.seen D.view.held self.old) ≡ None }
        ensures joined { IsJoinedSub D.Annotation.seen self.old → IsJoinedSub D.Annotation.seen self.new }
    {
        let mut cells = cells.into_iter();
        let Some(first) = cells.next() else {
            return Ok(());
        };
        self.append_sub(first, "", "")?;
        for cell in cells {
            self.add_one_below(cell)?;
        }
        Ok(())
    }

    fn add_one_below(&mut self, cell: SubRenderer<D>) -> Result<(), BlockError>
        ensures kinds { IfErr result (λ e. (e ≡ errors.TooNarrow) ⊎ (e ≡ errors.Memory)) }
        ensures done { OnOk result (append_sub (sub_of D.Annotation.seen D.view.held cell) [] []
            (slashed (sub_of D.Annotation.seen D.view.held self.old)) ≡ Some (sub_of D.Annotation.seen D.view.held
            self.new)) }
        ensures narrow { result ≡ Err errors.TooNarrow → append_sub (sub_of D.Annotation.seen D.view.held cell) [] []
            (slashed (sub_of D.Annotation.seen D.view.held self.old)) ≡ None }
        ensures joined { IsJoinedSub D.Annotation.seen self.old → IsJoinedSub D.Annotation.seen self.new }
    {
        self.add_slashes()?;
        self.append_sub(cell, "", "")
    }

    /// A border of slashes between two cells, where borders are drawn.
    fn add_slashes(&mut self) -> Result<(), AllocError>
        ensures done { OnOk result (sub_of D.Annotation.seen D.view.held self.new ≡ slashed (sub_of D.Annotation.seen
            D.view.held self.old)) }
        ensures joined { IsJoinedSub D.Annotation.seen self.old → IsJoinedSub D.Annotation.seen self.new }
    {
        if self.options.draw_borders {
            return self.laid.add_slashes(&self.annotations, self.width);
        }
        Ok(())
    }

    /// A border below the cells, where borders are drawn.
    fn rule(&mut self) -> Result<(), AllocError>
        ensures done { OnOk result (sub_of D.Annotation.seen D.view.held self.new
            ≡ ruled (sub_of D.Annotation.seen D.view.held self.old)) }
        ensures joined { IsJoinedSub D.Annotation.seen self.old → IsJoinedSub D.Annotation.seen self.new }
    {
        if self.options.draw_borders {
            return self.laid.put_border(&self.annotations, self.width);
        }
        Ok(())
    }
}

/// The cells that renderers are, each with the rows that it takes.
fn cells_of_subs<D: TextDecorator + Drop>(
    alloc: Global,
    cells: Vec<(SubRenderer<D>, usize)>,
) -> Result<Vec<LineSet<Vec<D::Annotation>>>, BlockError>
    ensures kinds { IfErr result (λ e. (e ≡ errors.TooNarrow) ⊎ (e ≡ errors.Memory)) }
    ensures cells { IfOk result (λ done. cells_of_subs (map (λ c. (sub_of D.Annotation.seen D.view.held c.0, c.1))
        cells.items) ≡ Some (map (cell_of (tags_seen D.Annotation.seen)) done.items)) }
    ensures narrow { result ≡ Err errors.TooNarrow → cells_of_subs
        (map (λ c. (sub_of D.Annotation.seen D.view.held c.0, c.1)) cells.items) ≡ None }
{
    let mut done = Vec::with_capacity(alloc, cells.len())?;
    for (cell, rows) in cells {
        done.push(cell.into_cell(rows)?)?;
    }
    Ok(done)
}
