//! The list of active formatting elements is made anew (WHATWG HTML, 13.2.4.3, "reconstruct the active formatting
//! elements").
ghost use Rattle.std.specs.Prelude.{◌≡◌, ◌+◌, ◌<◌, IfErr, OnOk, length};
ghost use Rattle.tree_formatting.specs.Entries.{entries_of, entry_of};
ghost use Rattle.tree_forest.specs.Orders.{IsForest};
ghost use Rattle.html_lexemes.specs.declared.fault.ParseFault.TheVariants.{Memory};
ghost use Rattle.tree_model.specs.Building.{seen, stack_of};
ghost use Rattle.tree_model.specs.Formatting.{is_kept, made_already, made_from, reconstructed};
ghost use Rattle.tree_model.specs.Sound.{Sound};

use crate::construction::Construction;
use html_lexemes::ParseFault;
use tree_forest::TreeSink;
use tree_formatting::FormatEntry;
use tree_model::{laws_of_forests, position};

impl<S: TreeSink> Construction<S> {
    /// Opens anew each listed element after the last marker, and after the last one that is open ("reconstruct the
    /// active formatting elements").
    pub fn reconstruct_active_formatting_elements(&mut self) -> Result<(), ParseFault>
        requires { Sound (seen S.view self.old.held self.old.sink) }
        ensures seen { OnOk result (seen S.view self.new.held self.new.sink ≡ reconstructed (seen S.view self.old.held
            self.old.sink)) }
        ensures sound { OnOk result (Sound (seen S.view self.new.held self.new.sink)) }
        ensures forest { IsForest (S.view.forest self.new.sink) }
        ensures memory { IfErr result (λ e. e ≡ Memory) }
    {
        let mut index = self.first_to_make();
        'forward: while index < self.held.formatting().as_slice().len() {
            self.make_anew(index)?;
            index += 1;
        }
        Ok(())
    }

    // how many entries need not be made anew
    fn first_to_make(&self) -> usize
        ensures { made_from result (seen S.view self.now.held self.now.sink) ≡ reconstructed (seen S.view self.now.held
            self.now.sink) }
    {
        kept_entries(
            self.held.formatting().as_slice(),
            self.held.open_elements(),
            &self.sink,
        )
    }

    // makes the element of an entry anew, and gives the entry to it
    fn make_anew(&mut self, index: usize) -> Result<(), ParseFault>
        requires sound { Sound (seen S.view self.old.held self.old.sink) }
        requires within { index < length self.old.held.entries }
        ensures made { OnOk result (made_from (index + 1) (seen S.view self.new.held self.new.sink) ≡ made_from index
            (seen S.view self.old.held self.old.sink)) }
        ensures size { OnOk result (length self.new.held.entries ≡ length self.old.held.entries) }
        ensures sound { OnOk result (Sound (seen S.view self.new.held self.new.sink)) }
        ensures forest { IsForest (S.view.forest self.new.sink) }
        ensures memory { IfErr result (λ e. e ≡ Memory) }
    {
        laws_of_forests();
        let FormatEntry::Element(_, tag) = &self.held.formatting().as_slice()[index] else {
            return Ok(());
        };
        let tag = tag.try_clone()?;
        let element = self.insert_element_for(&tag)?;
        self.held.give(index, element);
        Ok(())
    }
}

// whether an entry is a marker, or that of an open element
fn stays<H: Copy, S: TreeSink<Handle = H>>(entry: &FormatEntry<H>, elements: &[H], sink: &S) -> bool
    ensures { result ≡ is_kept (stack_of S.view.number elements.now) (entry_of S.view.number entry.now) }
{
    match entry {
        FormatEntry::Element(handle, _) => position(elements, sink, *handle).is_some(),
        FormatEntry::Marker => true,
    }
}

// how many entries there are up to the last of those that stay
fn kept_entries<H: Copy, S: TreeSink<Handle = H>>(
    entries: &[FormatEntry<H>],
    elements: &[H],
    sink: &S,
) -> usize
    ensures { result ≡ length (made_already (stack_of S.view.number elements.now) (entries_of S.view.number
        entries.now)) }
{
    let mut at = entries.len();
    'back: while at > 0 {
        if stays(&entries[at - 1], elements, sink) {
            return at;
        }
        at -= 1;
    }
    0
}
