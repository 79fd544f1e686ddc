//! How values look.
ghost use Rattle.std.specs.Prelude.{◌≡◌};
ghost use Rattle.render_values.specs.Looks.{plain, within};

use text_decorators::Colour;
use text_pieces::WhiteSpace;

/// How a value looks, where a rule of style says so.
#[derive(Clone, Copy, Debug, PartialEq, Eq)]
pub struct RenderStyle {
    /// The colour of its text.
    pub colour: Option<Colour>,
    /// The colour after its text.
    pub background: Option<Colour>,
    /// How its white space is laid out.
    pub white_space: Option<WhiteSpace>,
}

impl RenderStyle {
    /// The style of which no rule says anything.
    pub fn plain() -> RenderStyle
        ensures { result ≡ plain }
    {
        RenderStyle {
            colour: None,
            background: None,
            white_space: None,
        }
    }

    /// This style in another one: what it leaves open is as the outer one says.
    pub fn within(self, outer: RenderStyle) -> RenderStyle
        ensures { result ≡ within outer self }
    {
        RenderStyle {
            colour: self.colour.or(outer.colour),
            background: self.background.or(outer.background),
            white_space: self.white_space.or(outer.white_space),
        }
    }
}
