//! Items of lists: their marks.
ghost use Rattle.std.specs.Prelude.{◌≡◌, IfErr, IfOk, OnOk, chars, string_bytes};
ghost use Rattle.text_pieces.specs.declared.fault.BlockError.TheVariants as errors;
ghost use Rattle.layout_state.specs.Items.{last_mark, next_mark, padded};

use crate::around::ItemMark;
use crate::laying::LayoutState;
use crate::parts::push_spaces;
use block_trait::Renderer;
use std::alloc::AllocError;
use text_decorators::TextDecorator;
use text_lines::columns_of;
use text_pieces::BlockError;

impl ItemMark {
    // the next item's
    pub fn next(self) -> ItemMark
        ensures { result ≡ next_mark self }
    {
        match self {
            ItemMark::Bullet => ItemMark::Bullet,
            ItemMark::Number(number) => ItemMark::Number(number.saturating_add(1)),
        }
    }

    // the last item's of so many
    pub fn last(self, items: usize) -> ItemMark
        ensures { result ≡ last_mark self items }
    {
        match self {
            ItemMark::Bullet => ItemMark::Bullet,
            ItemMark::Number(number) => {
                let further = items.saturating_sub(1) as u64;
                ItemMark::Number(number.saturating_add_unsigned(further))
            }
        }
    }
}

// fills a text with spaces up to so many columns
fn fill(text: &mut String, columns: usize) -> Result<(), AllocError>
    ensures { OnOk result (chars (string_bytes text.new) ≡ padded columns (chars (string_bytes text.old))) }
{
    let missing = columns.saturating_sub(columns_of(text.as_str()));
    push_spaces(text, missing)
}

impl<D: TextDecorator + Drop> LayoutState<D> {
    ghost use Rattle.block_renderer.specs.Seen.{marking};
    ghost use Rattle.layout_state.specs.Items.{item_columns, item_mark};
    ghost use Rattle.layout_state.specs.LayoutState.{mark_of};
    ghost use Rattle.layout_state.specs.Seen.{IsWorking, laying_of};

    // the prefix of an item
    fn prefix_of(&mut self, mark: ItemMark) -> Result<String, BlockError>
        requires { IsWorking D.Annotation.seen D.view.held self.old }
        ensures text { IfOk result (λ s. (tag : _) → chars (string_bytes s) ≡ mark_of (marking D.view tag)
            (item_mark mark) (laying_of D.Annotation.seen D.view.held self.old)) }
        ensures stays { OnOk result (laying_of D.Annotation.seen D.view.held self.new ≡ laying_of D.Annotation.seen
            D.view.held self.old) }
        ensures works { OnOk result (IsWorking D.Annotation.seen D.view.held self.new) }
        ensures kinds { IfErr result (λ e. e ≡ errors.Memory) }
    {
        match mark {
            ItemMark::Bullet => self.text.current_mut().unordered_item_prefix(),
            ItemMark::Number(number) => self.text.current_mut().ordered_item_prefix(number),
        }
    }

    // the columns of the items' prefixes: of the wider of the first and the last
    pub fn columns_of_items(&mut self, first: ItemMark, last: ItemMark) -> Result<usize, BlockError>
        requires { IsWorking D.Annotation.seen D.view.held self.old }
        ensures columns { IfOk result (λ n. (tag : _) → n ≡ item_columns (marking D.view tag) first last
            (laying_of D.Annotation.seen D.view.held self.old)) }
        ensures stays { OnOk result (laying_of D.Annotation.seen D.view.held self.new ≡ laying_of D.Annotation.seen
            D.view.held self.old) }
        ensures works { OnOk result (IsWorking D.Annotation.seen D.view.held self.new) }
        ensures kinds { IfErr result (λ e. e ≡ errors.Memory) }
    {
        let front = self.prefix_of(first)?;
        let back = self.prefix_of(last)?;
        Ok(columns_of(front.as_str()).max(columns_of(back.as_str())))
    }

    // the prefix of an item, filled up to so many columns
    pub fn item_prefix(&mut self, mark: ItemMark, columns: usize) -> Result<String, BlockError>
        requires { IsWorking D.Annotation.seen D.view.held self.old }
        ensures text { IfOk result (λ s. (tag : _) → chars (string_bytes s) ≡ padded columns
            (mark_of (marking D.view tag) (item_mark mark) (laying_of D.Annotation.seen D.view.held self.old))) }
        ensures stays { OnOk result (laying_of D.Annotation.seen D.view.held self.new ≡ laying_of D.Annotation.seen
            D.view.held self.old) }
        ensures works { OnOk result (IsWorking D.Annotation.seen D.view.held self.new) }
        ensures kinds { IfErr result (λ e. e ≡ errors.Memory) }
    {
        let mut first = self.prefix_of(mark)?;
        fill(&mut first, columns)?;
        Ok(first)
    }
}
