//! How many entries have a name, and how many were made for a tag: with that most searches need no walk.
ghost use Rattle.std.specs.Prelude.{◌≡◌, ◌+◌, ◌-◌, ◌≤◌, [], ◌∷◌, ◌++◌, IfOk, List, OnErr, OnOk, cond, count_by, nat_eq};
ghost use Rattle.std.specs.Prelude.{ℕ};
ghost use Rattle.std.specs.HashMap.{IsUnchanged};
ghost use Rattle.html_lexemes.specs.declared.token.Tag.{Tag as SeenTag};
ghost use Rattle.tree_formatting.specs.Alike.{are_alike};
ghost use Rattle.tree_formatting.specs.Counted.{IsCounted, count_of};
ghost use Rattle.tree_formatting.specs.Entries.{is_named};

use crate::prints::{name_print, tag_print};
use html_lexemes::{LocalName, Tag};
use std::alloc::{AllocError, Global};
use std::collections::HashMap;

/// How many entries have the print of a name and that of a tag, or more.
#[derive(Drop)]
pub(crate) struct TagCounts {
    names: HashMap<u64, usize>,
    tags: HashMap<u64, usize>,
}

impl TagCounts {
    /// No entries. It takes no memory.
    pub(crate) fn new(alloc: Global) -> TagCounts
        ensures { IsCounted [] result }
    {
        TagCounts {
            names: HashMap::new(alloc),
            tags: HashMap::new(alloc),
        }
    }

    /// An entry more: at most how many before it are alike.
    pub(crate) fn count_in(&mut self, tag: &Tag) -> Result<usize, AllocError>
        ensures most { IfOk result (λ most. (held : List SeenTag) → IsCounted held self.old →
            count_by (λ a. are_alike a tag.now) held ≤ most) }
        ensures ok { OnOk result ((held : List SeenTag) → IsCounted held self.old →
            IsCounted (held ++ tag.now ∷ []) self.new) }
        ensures err { OnErr result ((held : List SeenTag) → IsCounted held self.old → IsCounted held self.new) }
    {
        one_more(&mut self.names, name_print(&tag.name))?;
        one_more(&mut self.tags, tag_print(tag))
    }

    /// An entry less.
    pub(crate) fn count_out(&mut self, tag: &Tag)
        ensures { (front back : List SeenTag) → IsCounted (front ++ tag.now ∷ back) self.old →
            IsCounted (front ++ back) self.new }
    {
        one_less(&mut self.names, name_print(&tag.name));
        one_less(&mut self.tags, tag_print(tag));
    }

    /// At most how many entries have a name.
    pub(crate) fn most_named(&self, name: &LocalName) -> usize
        ensures { (held : List SeenTag) → IsCounted held self.now → count_by (is_named name.now) held ≤ result }
    {
        count_of(&self.names, name_print(name))
    }
}

fn count_of(counts: &HashMap<u64, usize>, print: u64) -> usize
    ensures { result ≡ count_of counts.now print }
{
    counts.get(&print).copied().unwrap_or(0)
}

/// One more of a print: how many there were.
fn one_more(counts: &mut HashMap<u64, usize>, print: u64) -> Result<usize, AllocError>
    ensures before { IfOk result (λ before. before ≡ count_of counts.old print) }
    ensures ok { OnOk result ((other : ℕ) → count_of counts.new other
        ≡ cond (nat_eq print other) (count_of counts.old print + 1) (count_of counts.old other)) }
    ensures err { OnErr result (IsUnchanged counts.old counts.new) }
{
    let before = count_of(counts, print);
    let Some(more) = before.checked_add(1) else {
        return Err(AllocError);
    };
    counts.insert(print, more)?;
    Ok(before)
}

/// One less of a print. A print of which there are none takes no memory.
fn one_less(counts: &mut HashMap<u64, usize>, print: u64)
    ensures { (other : ℕ) → count_of counts.new other
        ≡ cond (nat_eq print other) (count_of counts.old print - 1) (count_of counts.old other) }
{
    let before = count_of(counts, print);
    if before > 1 {
        if let Some(count) = counts.get_mut(&print) {
            *count = before - 1;
        }
        return;
    }
    counts.remove(&print);
}
