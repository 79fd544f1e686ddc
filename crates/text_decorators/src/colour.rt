ghost use Rattle.std.specs.Prelude.{Some};

use std::fmt;

/// A colour by its parts, each from 0 to 255.
#[derive(Clone, Copy, Debug, PartialEq, Eq)]
pub struct Colour {
    /// Red.
    pub r: u8,
    /// Green.
    pub g: u8,
    /// Blue.
    pub b: u8,
}

/// `#` and six lower hexadecimal digits, two for each part.
impl fmt::Display for Colour {
    ghost use Rattle.text_decorators.specs.Colours.{colour_text};

    ghost output = { λ c. Some (colour_text c) };

    fn fmt<W: fmt::Write>(&self, f: &mut fmt::Formatter<W>) -> fmt::Result {
        let Colour { r, g, b } = *self;
        write!(f, "#{r:02x}{g:02x}{b:02x}")
    }
}
