//! Laws of what is laid out: each is the contract of a function that does nothing.
ghost use Rattle.block_trait.specs.Renderers.{Marking};
ghost use Rattle.layout_laws.specs.BareLaws.{AreLaidBare};
ghost use Rattle.layout_laws.specs.WalkLaws.{KeepWidth, AreLaidWithRoom};

use block_laws::{
    a_prefix_and_its_room_are_the_width, annotations_change_no_text, renderers_keep_the_width,
    renderers_with_room_never_refuse,
};
use block_layout_laws::cells_hang_until_a_row;
use column_fits::fitted_widths_fit;
use render_sizes::tables_are_sound;
use table_fits::tables_have_fits;
use table_widths::widths_across_fit;
use text_block_renderer::{parts_keep_the_width, parts_with_room_never_refuse};
use text_borders::cells_keep_their_places;
use text_decorators::TextDecorator;

/// No line passes the width of its renderer, where no character may overflow and prefixes are steady, whatever values
/// are laid out: parts after prefixes, items of lists and rows of tables among them.
pub fn values_keep_the_width<D: TextDecorator>()
    ensures { (m : Marking D.Held D.Annotation.Seen) → KeepWidth m }
{
    renderers_keep_the_width::<D>();
    a_prefix_and_its_room_are_the_width::<D>();
    parts_keep_the_width::<D>();
    cells_hang_until_a_row::<Vec<D::Annotation>>();
    cells_keep_their_places::<Vec<D::Annotation>>();
    widths_across_fit();
    fitted_widths_fit();
    tables_have_fits();
    tables_are_sound();
}

/// Where a character that is wider than the lines may stand alone on one, all values are laid out, at any width.
pub fn values_with_room_are_laid<D: TextDecorator>()
    ensures { (m : Marking D.Held D.Annotation.Seen) → AreLaidWithRoom m }
{
    renderers_with_room_never_refuse::<D>();
    a_prefix_and_its_room_are_the_width::<D>();
    parts_with_room_never_refuse::<D>();
}

/// Values are laid out the same in renderers that keep no annotations, and are refused where they are refused in
/// others.
pub fn annotations_change_no_page<D: TextDecorator>()
    ensures { (m : Marking D.Held D.Annotation.Seen) → AreLaidBare m }
{
    annotations_change_no_text::<D>();
}
