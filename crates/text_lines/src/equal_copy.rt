ghost use Rattle.std.specs.Prelude.{◌≡◌, ◌≢◌, true, false, List, map, IfOk, refl};
ghost use Rattle.text_lines.specs.Copies.{seen-same, seen-apart};

use std::alloc::{AllocError, Global};

/// A tag that can be copied: contracts see a tag by what is the same in its copy, and `==` tests just
/// that.
pub trait EqualCopy: Eq {
    ghost Seen: { Type 0 };

    ghost seen: { Self → Seen };

    /// A tag that equals this one. The error is allocation failure alone.
    fn copy(&self, alloc: Global) -> Result<Self, AllocError>
    where
        Self: Sized,
        ensures { IfOk result (λ c. seen c ≡ seen self.now) };

    /// Tags that equal these, in order. The error is allocation failure alone.
    fn copies(tags: &[Self], alloc: Global) -> Result<Vec<Self>, AllocError>
    where
        Self: Sized + Drop,
        ensures { IfOk result (λ copies. map seen copies.items ≡ map seen tags.now) }
    {
        if tags.is_empty() {
            return Ok(Vec::new(alloc));
        }
        let mut copies = Vec::with_capacity(alloc, tags.len())?;
        for tag in tags {
            copies.push(tag.copy(alloc)?)?;
        }
        Ok(copies)
    }

    ghost same: { (x y : Self) → Self.eq x y ≡ true → seen x ≡ seen y };

    ghost apart: { (x y : Self) → Self.eq x y ≡ false → seen x ≢ seen y };
}

impl EqualCopy for () {
    ghost Seen = { Unit {0} };

    ghost seen = { λ _. tt };

    ghost same = { λ _ _ _. refl };

    ghost apart = { λ _ _ h. Prim.cc };

    fn copy(&self, _alloc: Global) -> Result<(), AllocError> {
        Ok(())
    }

    fn copies(tags: &[()], alloc: Global) -> Result<Vec<()>, AllocError> {
        let mut copies = Vec::new(alloc);
        copies.resize_with(tags.len(), || ())?;
        Ok(copies)
    }
}

impl<T: EqualCopy + Drop> EqualCopy for Vec<T> {
    ghost Seen = { List T.Seen };

    ghost seen = { λ tags. map T.seen tags.items };

    ghost same = { λ x y. seen-same T.eq T.seen T.same x.items y.items };

    ghost apart = { λ x y. seen-apart T.eq T.seen T.apart x.items y.items };

    fn copy(&self, alloc: Global) -> Result<Vec<T>, AllocError> {
        T::copies(self, alloc)
    }
}
