use crate::around::Around;
use crate::place::TablePlace;
use text_block_renderer::TextRenderer;
use text_decorators::TextDecorator;

/// A page that is laid out.
#[derive(Drop)]
pub struct LayoutState<D: TextDecorator> {
    /// Its renderers.
    pub text: TextRenderer<D>,
    /// What a list around says of the next value.
    pub around: Around,
    /// Where in a table the next value stands.
    pub table: TablePlace<D>,
}
