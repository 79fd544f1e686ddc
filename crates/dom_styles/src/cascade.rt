//! One property: what is declared of it, and which declaration holds.
ghost use Rattle.std.specs.Prelude.{◌≡◌, ◌∷◌, ◌++◌, [], List, option_map};
ghost use Rattle.dom_styles.specs.Cascade.{IsCascaded};
ghost use Rattle.dom_styles.specs.Keys.{is_before, is_outranked, origin_rank};

use crate::specificity::Specificity;

/// Where a style comes from (CSS 2.2, 6.4).
#[derive(Clone, Copy, Debug, Default, PartialEq, Eq, PartialOrd, Ord, Hash)]
pub enum StyleOrigin {
    /// Nowhere.
    #[default]
    None,
    /// The program that shows the page.
    Agent,
    /// Its reader.
    User,
    /// Its author.
    Author,
}

/// Whether a declaration is important (CSS 2.2, 6.4.2).
#[derive(Clone, Copy, Debug, Default, PartialEq, Eq, PartialOrd, Ord, Hash)]
pub enum Importance {
    /// It is not.
    #[default]
    Default,
    /// It is, by `!important`.
    Important,
}

/// A declaration of one property, with what decides between it and others.
#[derive(Clone, Copy, Debug, Drop)]
pub struct Declared<T> {
    /// Whether it is important.
    pub importance: Importance,
    /// Where it comes from.
    pub origin: StyleOrigin,
    /// How specific it is.
    pub specificity: Specificity,
    /// The value that it gives the property.
    pub val: T,
}

/// The value of a property, with what decides between it and others; unset where nothing is declared.
#[derive(Drop)]
pub struct WithSpec<T> {
    holds: Option<Declared<T>>,
}

impl<T: Drop> Default for WithSpec<T> {
    ghost use Rattle.std.specs.Prelude.{◌≡◌, None};
    ghost use Rattle.dom_styles.specs.Seen.{holding};

    ghost is_default = { λ s. holding s ≡ None };

    /// The property is unset.
    fn default() -> WithSpec<T> {
        WithSpec { holds: None }
    }
}

impl<T: Drop> WithSpec<T> {
    ghost use Rattle.dom_styles.specs.Seen.{holding};

    /// The value; none where the property is unset.
    pub fn val(&self) -> Option<&T>
        ensures { option_map (λ t. t.now) result ≡ option_map (λ d. d.val) (holding self.now) }
    {
        match &self.holds {
            Some(declared) => Some(&declared.val),
            None => None,
        }
    }

    /// The declaration that holds; none where the property is unset.
    pub fn declared(&self) -> Option<&Declared<T>>
        ensures { option_map (λ d. d.now) result ≡ holding self.now }
    {
        self.holds.as_ref()
    }

    /// A declaration more. It holds from here on unless one with a greater key does: the greater key is the important
    /// one's, then that of the later origin, of important ones the earlier one, then that of the greater specificity.
    pub fn maybe_update(&mut self, declared: Declared<T>)
        ensures { (ds : List (Declared T)) → IsCascaded ds (holding self.old)
            → IsCascaded (ds ++ declared ∷ []) (holding self.new) }
    {
        if self.outranks(&declared) {
            return;
        }
        self.holds = Some(declared);
    }

    /// Whether what holds has a greater key than a declaration.
    fn outranks(&self, declared: &Declared<T>) -> bool
        ensures { result ≡ is_outranked (holding self.now) declared.now }
    {
        match &self.holds {
            Some(holds) => is_before(declared, holds),
            None => false,
        }
    }
}

/// Whether a declaration's key is less than that of another.
fn is_before<T>(declared: &Declared<T>, other: &Declared<T>) -> bool
    ensures { result ≡ is_before declared.now other.now }
{
    key(declared) < key(other)
}

/// What decides between declarations of one property, in this order.
#[derive(PartialEq, Eq, PartialOrd, Ord, Drop)]
struct CascadeKey {
    importance: Importance,
    origin_rank: u8,
    specificity: Specificity,
}

/// The key of a declaration.
fn key<T>(declared: &Declared<T>) -> CascadeKey
    ensures importance { result.importance ≡ declared.now.importance }
    ensures origin_rank { result.origin_rank ≡ origin_rank declared.now.importance declared.now.origin }
    ensures specificity { result.specificity ≡ declared.now.specificity }
{
    let origin = declared.origin as u8;
    let origin_rank = match declared.importance {
        Importance::Default => origin,
        Importance::Important => 3 - origin,
    };
    CascadeKey {
        importance: declared.importance,
        origin_rank,
        specificity: declared.specificity,
    }
}
