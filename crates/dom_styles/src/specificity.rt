//! How specific a style is.
ghost use Rattle.std.specs.Prelude.{◌≡◌};
ghost use Rattle.dom_styles.specs.Keys.{specificity_sum};

use std::ops::{Add, AddAssign};

/// How specific a style is (CSS 2.2, 6.4.3). It is ordered by its fields, in their order.
#[derive(Clone, Copy, Debug, Default, PartialEq, Eq, PartialOrd, Ord, Hash)]
pub struct Specificity {
    /// Whether it stands at the element.
    pub inline: bool,
    /// How many identifiers its selector has, at most 65,535.
    pub id: u16,
    /// How many classes, attributes and pseudo-classes its selector has, at most 65,535.
    pub class: u16,
    /// How many names of elements and pseudo-elements its selector has, at most 65,535.
    pub typ: u16,
}

impl Add for Specificity {
    type Output = Specificity;

    /// Both together; a count that would pass 65,535 is that.
    fn add(self, other: Specificity) -> Specificity
        ensures { result ≡ specificity_sum self other }
    {
        Specificity {
            inline: self.inline || other.inline,
            id: self.id.saturating_add(other.id),
            class: self.class.saturating_add(other.class),
            typ: self.typ.saturating_add(other.typ),
        }
    }
}

impl AddAssign for Specificity {
    /// Adds another, as `+`.
    fn add_assign(&mut self, other: Specificity)
        ensures { self.new ≡ specificity_sum self.old other }
    {
        *self = *self + other;
    }
}
