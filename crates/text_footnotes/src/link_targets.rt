//! The targets of links in order, with the numbers of their footnotes.
ghost use Rattle.std.specs.Prelude.{◌≡◌, ◌≤◌, length, take};
ghost use Rattle.text_pieces.specs.Sources.{names};
ghost use Rattle.text_footnotes.specs.Seen.{AreNumbered};

use crate::numbers::{each_once, note};
use std::alloc::{AllocError, Global};
use std::collections::HashMap;

/// The targets of links in order. Each link has a footnote of its own, or links to equal targets (equal as texts) share
/// one.
#[derive(Drop)]
pub struct LinkTargets {
    /// One for each link.
    targets: Vec<String>,
    /// So many of them, the first ones, are numbered as those whose links share footnotes: none before a number is
    /// asked for.
    numbered: usize,
    /// The number of each of these.
    numbers: HashMap<String, usize>,
    ghost some: { numbered ≤ length targets.items },
    ghost sound: { AreNumbered (take numbered (names targets.items)) numbers },
}

impl LinkTargets {
    ghost use Rattle.std.specs.Prelude.{◌++◌, ◌∷◌, [], IfOk, OnErr, OnOk, chars};
    ghost use Rattle.text_footnotes.specs.Links.{all_targets};
    ghost use Rattle.text_footnotes.specs.Targets.{last_number, noted_targets};

    /// No link so far. It takes no memory.
    pub fn new(alloc: Global) -> LinkTargets
        ensures { all_targets result ≡ [] }
    {
        LinkTargets {
            targets: Vec::new(alloc),
            numbered: 0,
            numbers: HashMap::new(alloc),
        }
    }

    /// A link to the target begins. The error is allocation failure, and then there is no link more.
    pub fn push(&mut self, target: &str) -> Result<(), AllocError>
        ensures pushed { OnOk result (all_targets self.new ≡ all_targets self.old ++ chars target.now ∷ []) }
        ensures err { OnErr result (all_targets self.new ≡ all_targets self.old) }
    {
        let text = String::from_str(*self.targets.allocator(), target)?;
        self.targets.push(text)?;
        Ok(())
    }

    /// The number of the last link's footnote, from 1 on, where links to equal targets share a footnote or each link
    /// has its own; 0 before the first link. The error is allocation failure.
    pub fn last_number(&mut self, shared: bool) -> Result<usize, AllocError>
        ensures number { IfOk result (λ number. number ≡ last_number shared (all_targets self.old)) }
        ensures stay { all_targets self.new ≡ all_targets self.old }
    {
        if !shared {
            return Ok(self.targets.len());
        }
        self.number_all()?;
        match self.targets.last() {
            Some(target) => Ok(self.numbers.get(target).copied().unwrap_or(0)),
            None => Ok(0),
        }
    }

    /// The targets that have footnotes, in the order of their numbers, where links to equal targets share a footnote or
    /// each link has its own. The error is allocation failure.
    pub fn into_noted(self, shared: bool) -> Result<Vec<String>, AllocError>
        ensures { IfOk result (λ noted. names noted.items ≡ noted_targets shared (all_targets self)) }
    {
        let mut links = self;
        if shared {
            links.number_all()?;
            let LinkTargets {
                targets,
                numbers,
                ..
            } = links;
            return each_once(targets, numbers);
        }
        let LinkTargets { targets, .. } = links;
        Ok(targets)
    }

    /// Numbers the targets that have no number yet: each once, however often numbers are asked for.
    fn number_all(&mut self) -> Result<(), AllocError>
        ensures numbered { OnOk result (AreNumbered (all_targets self.new) self.new.numbers) }
        ensures stay { all_targets self.new ≡ all_targets self.old }
    {
        'more: while self.numbered < self.targets.len() {
            note(&mut self.numbers, &self.targets[self.numbered])?;
            self.numbered += 1;
        }
        Ok(())
    }
}
