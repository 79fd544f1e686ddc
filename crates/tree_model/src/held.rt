//! What is held beside the nodes.
ghost use Rattle.std.specs.Prelude.{◌≡◌, ◌<◌, [], ◌∷◌, ◌++◌, IfOk, IfSome, List, None, OnErr, OnOk, false, length};
ghost use Rattle.std.specs.Prelude.{option_map, true, ℕ};
ghost use Rattle.tree_formatting.specs.Entries.{before_marker, entries_of, given, handed_over, marker, without_entry};
ghost use Rattle.tree_formatting.specs.Pushing.{pushed};
ghost use Rattle.tree_formatting.specs.declared.entry.FormatEntry.{FormatEntry};
ghost use Rattle.tree_forest.specs.Changes.{left_out};
ghost use Rattle.tree_forest.specs.Forest.{IsElement, is_in, name_of};
ghost use Rattle.tree_forest.specs.Orders.{AreDistinct, IsIn};
ghost use Rattle.tree_forest.specs.Places.{put_before};
ghost use Rattle.tree_model.specs.Adoption.{entries_at, replaced};
ghost use Rattle.tree_model.specs.Building.{are_counted, stack_of};
ghost use Rattle.tree_model.specs.OpenAt.{IsFirstOpened, IsOpenAt};
ghost use Rattle.tree_model.specs.OpenElements.{below_current, first_of};
ghost use Rattle.tree_names.specs.Counts.{counts_of};

use html_lexemes::Tag;
use std::alloc::{AllocError, Global};
use std::marker::Model;
use tree_forest::TreeSink;
use tree_formatting::FormattingList;
use tree_names::OpenCounts;

/// What is held beside the nodes (WHATWG HTML, 13.2.4): the stack of open elements, the list of active formatting
/// elements, and whether foster parenting is on; and how many elements of each name are open.
#[derive(Drop)]
pub struct Held<H> {
    open_elements: Vec<H>,
    formatting: FormattingList<H>,
    is_fostering: bool,
    counts: OpenCounts,
}

impl<H> Model for Held<H> {
    ghost use Rattle.tree_model.specs.Building.{Parts};

    ghost Value = { Parts H };

    ghost view = { λ held. record {
      open_elements = held.open_elements.items;
      entries = held.formatting;
      is_fostering = held.is_fostering;
      counts = held.counts;
    } };
}

impl<H: Copy> Held<H> {
    /// Nothing open, nothing listed, and foster parenting off. It takes no memory.
    pub fn new(alloc: Global) -> Held<H>
        ensures { result ≡ record { open_elements = []; entries = []; is_fostering = false; counts = counts_of [] } }
    {
        Held {
            open_elements: Vec::new(alloc),
            formatting: FormattingList::new(alloc),
            is_fostering: false,
            counts: OpenCounts::new(),
        }
    }

    /// The allocator that the stack is kept by.
    pub fn alloc(&self) -> Global {
        *self.open_elements.allocator()
    }

    /// The open elements, the current node last, lent.
    pub fn open_elements(&self) -> &[H]
        ensures { result.now ≡ self.now.open_elements }
    {
        self.open_elements.as_slice()
    }

    /// Whether foster parenting is on (WHATWG HTML, 13.2.6.1).
    pub fn is_fostering(&self) -> bool
        ensures { result ≡ self.now.is_fostering }
    {
        self.is_fostering
    }

    /// Turns foster parenting on or off.
    pub fn set_fostering(&mut self, is_fostering: bool)
        ensures { self.new ≡ record self.old { is_fostering = is_fostering } }
    {
        self.is_fostering = is_fostering;
    }

    /// An element becomes the current node.
    pub fn push<S: TreeSink<Handle = H>>(&mut self, sink: &S, element: H) -> Result<(), AllocError>
        requires element { IsElement (S.view.number element) (S.view.forest sink.now) }
        requires counted { are_counted self.old.counts (stack_of S.view.number self.old.open_elements)
            (S.view.forest sink.now) ≡ true }
        ensures open { OnOk result (stack_of S.view.number self.new.open_elements ≡ S.view.number element ∷ stack_of
            S.view.number self.old.open_elements) }
        ensures entries { self.new.entries ≡ self.old.entries }
        ensures fostering { self.new.is_fostering ≡ self.old.is_fostering }
        ensures counted { OnOk result (are_counted self.new.counts (stack_of S.view.number self.new.open_elements)
            (S.view.forest sink.now) ≡ true) }
        ensures err { OnErr result (self.new ≡ self.old) }
    {
        self.open_elements.push(element)?;
        self.counts
            .add(sink.elem_name(element), self.open_elements.len());
        Ok(())
    }

    /// The current node is no longer open, where an element is.
    pub fn pop<S: TreeSink<Handle = H>>(&mut self, sink: &S)
        requires elements { (n : ℕ) → IsIn n (stack_of S.view.number self.old.open_elements) → IsElement n
            (S.view.forest sink.now) }
        requires counted { are_counted self.old.counts (stack_of S.view.number self.old.open_elements)
            (S.view.forest sink.now) ≡ true }
        ensures open { stack_of S.view.number self.new.open_elements ≡ below_current
            (stack_of S.view.number self.old.open_elements) }
        ensures entries { self.new.entries ≡ self.old.entries }
        ensures fostering { self.new.is_fostering ≡ self.old.is_fostering }
        ensures counted { are_counted self.new.counts (stack_of S.view.number self.new.open_elements)
            (S.view.forest sink.now) ≡ true }
    {
        if let Some(element) = self.open_elements.pop() {
            self.counts.remove(sink.elem_name(element));
        }
    }

    /// How many elements are open, by name.
    pub fn counts(&self) -> &OpenCounts
        ensures { result.now ≡ self.now.counts }
    {
        &self.counts
    }

    /// The list of active formatting elements, lent.
    pub fn formatting(&self) -> &FormattingList<H>
        ensures { result.now ≡ self.now.entries }
    {
        &self.formatting
    }

    /// Puts a marker into the list.
    pub fn push_marker(&mut self) -> Result<(), AllocError>
        ensures open { self.new.open_elements ≡ self.old.open_elements }
        ensures entries { OnOk result ((number : H → ℕ) →
            entries_of number self.new.entries ≡ marker ∷ entries_of number self.old.entries) }
        ensures fostering { self.new.is_fostering ≡ self.old.is_fostering }
        ensures counts { self.new.counts ≡ self.old.counts }
        ensures err { OnErr result (self.new ≡ self.old) }
    {
        self.formatting.push_marker()
    }

    /// Clears the list up to the last marker.
    pub fn clear_to_marker(&mut self)
        ensures open { self.new.open_elements ≡ self.old.open_elements }
        ensures entries { (number : H → ℕ) →
            entries_of number self.new.entries ≡ before_marker (entries_of number self.old.entries) }
        ensures fostering { self.new.is_fostering ≡ self.old.is_fostering }
        ensures counts { self.new.counts ≡ self.old.counts }
    {
        self.formatting.clear_to_marker();
    }

    /// Lists an element with the tag that it was made for.
    pub fn push_formatting(&mut self, element: H, tag: Tag) -> Result<(), AllocError>
        ensures open { self.new.open_elements ≡ self.old.open_elements }
        ensures entries { OnOk result ((number : H → ℕ) →
            entries_of number self.new.entries ≡ pushed (number element) tag (entries_of number self.old.entries)) }
        ensures fostering { self.new.is_fostering ≡ self.old.is_fostering }
        ensures counts { self.new.counts ≡ self.old.counts }
        ensures err { OnErr result (self.new ≡ self.old) }
    {
        self.formatting.push_element(element, tag)
    }

    /// Takes an element's entry off the list.
    pub fn unlist<S: TreeSink<Handle = H>>(&mut self, sink: &S, element: H)
        ensures open { self.new.open_elements ≡ self.old.open_elements }
        ensures entries { entries_of S.view.number self.new.entries ≡ without_entry (S.view.number element)
            (entries_of S.view.number self.old.entries) }
        ensures fostering { self.new.is_fostering ≡ self.old.is_fostering }
        ensures counts { self.new.counts ≡ self.old.counts }
    {
        self.formatting.remove(sink, element);
    }

    /// Gives the entry that has so many before it to another element, with its tag; a marker stays.
    pub fn give(&mut self, index: usize, to: H)
        requires { index < length self.old.entries }
        ensures open { self.new.open_elements ≡ self.old.open_elements }
        ensures entries { (entry : FormatEntry H) (front back : List (FormatEntry H)) →
            self.old.entries ≡ front ++ entry ∷ back → length front ≡ index →
            self.new.entries ≡ front ++ given to entry ∷ back }
        ensures fostering { self.new.is_fostering ≡ self.old.is_fostering }
        ensures counts { self.new.counts ≡ self.old.counts }
    {
        self.formatting.give(index, to);
    }

    /// Takes an element off the stack, wherever it stands.
    pub fn take_off<S: TreeSink<Handle = H>>(&mut self, sink: &S, element: H)
        requires distinct { AreDistinct (stack_of S.view.number self.old.open_elements) }
        requires elements { (n : ℕ) → IsIn n (stack_of S.view.number self.old.open_elements) → IsElement n
            (S.view.forest sink.now) }
        requires counted { are_counted self.old.counts (stack_of S.view.number self.old.open_elements)
            (S.view.forest sink.now) ≡ true }
        ensures open { stack_of S.view.number self.new.open_elements ≡ left_out (S.view.number element)
            (stack_of S.view.number self.old.open_elements) }
        ensures entries { self.new.entries ≡ self.old.entries }
        ensures fostering { self.new.is_fostering ≡ self.old.is_fostering }
        ensures counted { are_counted self.new.counts (stack_of S.view.number self.new.open_elements)
            (S.view.forest sink.now) ≡ true }
    {
        if leave_out(&mut self.open_elements, sink, element) {
            self.counts.remove(sink.elem_name(element));
        }
    }

    /// Gives an element's place among the open ones to another of its name.
    pub fn replace<S: TreeSink<Handle = H>>(&mut self, sink: &S, element: H, to: H)
        requires distinct { AreDistinct (stack_of S.view.number self.old.open_elements) }
        requires name { name_of (S.view.number to) (S.view.forest sink.now) ≡ name_of (S.view.number element)
            (S.view.forest sink.now) }
        requires counted { are_counted self.old.counts (stack_of S.view.number self.old.open_elements)
            (S.view.forest sink.now) ≡ true }
        ensures open { stack_of S.view.number self.new.open_elements ≡ replaced (S.view.number element)
            (S.view.number to) (stack_of S.view.number self.old.open_elements) }
        ensures entries { self.new.entries ≡ self.old.entries }
        ensures fostering { self.new.is_fostering ≡ self.old.is_fostering }
        ensures counted { are_counted self.new.counts (stack_of S.view.number self.new.open_elements)
            (S.view.forest sink.now) ≡ true }
    {
        put_in_place_of(&mut self.open_elements, sink, element, to);
    }

    /// Opens an element right below another, that is, nearer to the current node.
    pub fn open_below<S: TreeSink<Handle = H>>(
        &mut self,
        sink: &S,
        element: H,
        opened: H,
    ) -> Result<(), AllocError>
        requires element { IsElement (S.view.number opened) (S.view.forest sink.now) }
        requires counted { are_counted self.old.counts (stack_of S.view.number self.old.open_elements)
            (S.view.forest sink.now) ≡ true }
        ensures open { OnOk result (stack_of S.view.number self.new.open_elements ≡ put_before (S.view.number element)
            (S.view.number opened) (stack_of S.view.number self.old.open_elements)) }
        ensures entries { self.new.entries ≡ self.old.entries }
        ensures fostering { self.new.is_fostering ≡ self.old.is_fostering }
        ensures counted { OnOk result (are_counted self.new.counts (stack_of S.view.number self.new.open_elements)
            (S.view.forest sink.now) ≡ true) }
        ensures err { OnErr result (self.new ≡ self.old) }
    {
        if insert_below(&mut self.open_elements, sink, element, opened)? {
            self.counts
                .add(sink.elem_name(opened), self.open_elements.len());
        }
        Ok(())
    }

    /// Gives an element's entry to another.
    pub fn hand_over<S: TreeSink<Handle = H>>(&mut self, sink: &S, element: H, to: H)
        ensures open { self.new.open_elements ≡ self.old.open_elements }
        ensures entries { entries_of S.view.number self.new.entries ≡ handed_over (S.view.number element)
            (S.view.number to) (entries_of S.view.number self.old.entries) }
        ensures fostering { self.new.is_fostering ≡ self.old.is_fostering }
        ensures counts { self.new.counts ≡ self.old.counts }
    {
        self.formatting.hand_over(sink, element, to);
    }

    /// Gives an element's entry to its copy: at the bookmark, where that stands after the last marker, else where the
    /// entry is.
    pub fn list_at<S: TreeSink<Handle = H>>(
        &mut self,
        sink: &S,
        bookmark: Option<H>,
        element: H,
        copy: H,
    ) -> Result<(), AllocError>
        ensures open { self.new.open_elements ≡ self.old.open_elements }
        ensures entries { OnOk result (entries_of S.view.number self.new.entries ≡ entries_at (option_map S.view.number
            bookmark) (S.view.number element) (S.view.number copy) (entries_of S.view.number self.old.entries)) }
        ensures fostering { self.new.is_fostering ≡ self.old.is_fostering }
        ensures counts { self.new.counts ≡ self.old.counts }
        ensures err { OnErr result (self.new ≡ self.old) }
    {
        if let Some(after) = bookmark {
            if self.formatting.stands_after_marker(sink, after, element) {
                return self.formatting.move_after(sink, element, copy, after);
            }
        }
        self.formatting.hand_over(sink, element, copy);
        Ok(())
    }
}

// takes an element off, where it is one of these, and says whether it was
fn leave_out<H: Copy, S: TreeSink<Handle = H>>(elements: &mut Vec<H>, sink: &S, element: H) -> bool
    requires { AreDistinct (stack_of S.view.number elements.old.items) }
    ensures left { stack_of S.view.number elements.new.items ≡ left_out (S.view.number element)
        (stack_of S.view.number elements.old.items) }
    ensures was_there { result ≡ is_in (S.view.number element) (stack_of S.view.number elements.old.items) }
{
    let Some(at) = position(elements.as_slice(), sink, element) else {
        return false;
    };
    elements.remove(at);
    true
}

// puts an element in the place of another, where that is one of these
fn put_in_place_of<H: Copy, S: TreeSink<Handle = H>>(
    elements: &mut Vec<H>,
    sink: &S,
    element: H,
    to: H,
)
    requires { AreDistinct (stack_of S.view.number elements.old.items) }
    ensures { stack_of S.view.number elements.new.items ≡ replaced (S.view.number element) (S.view.number to)
        (stack_of S.view.number elements.old.items) }
{
    if let Some(at) = position(elements.as_slice(), sink, element) {
        elements[at] = to;
    }
}

// puts an element right after another, where that is one of these, and says whether it was
fn insert_below<H: Copy, S: TreeSink<Handle = H>>(
    elements: &mut Vec<H>,
    sink: &S,
    element: H,
    opened: H,
) -> Result<bool, AllocError>
    ensures ok { OnOk result (stack_of S.view.number elements.new.items ≡ put_before (S.view.number element)
        (S.view.number opened) (stack_of S.view.number elements.old.items)) }
    ensures was_there { IfOk result (λ there. there ≡ is_in (S.view.number element)
        (stack_of S.view.number elements.old.items)) }
    ensures err { OnErr result (elements.new.items ≡ elements.old.items) }
{
    let Some(at) = position(elements.as_slice(), sink, element) else {
        return Ok(false);
    };
    elements.insert(at + 1, opened)?;
    Ok(true)
}

/// How many open elements stand before one, looked for from the current node.
pub fn position<H: Copy, S: TreeSink<Handle = H>>(
    elements: &[H],
    sink: &S,
    target: H,
) -> Option<usize>
    ensures found { IfSome result (IsOpenAt S.view.number (S.view.number target) elements.now) }
    ensures missing { result ≡ None → is_in (S.view.number target) (stack_of S.view.number elements.now) ≡ false }
{
    let mut at = elements.len();
    'back: while at > 0 {
        at -= 1;
        if sink.same_node(elements[at], target) {
            return Some(at);
        }
    }
    None
}

/// The last of some open elements.
pub fn last_element<H: Copy>(elements: &[H]) -> Option<H>
    ensures { (number : H → ℕ) → option_map number result ≡ first_of (stack_of number elements.now) }
{
    elements.last().copied()
}

/// The first of some open elements.
pub fn first_element<H: Copy>(elements: &[H]) -> Option<H>
    ensures { (number : H → ℕ) → IsFirstOpened (option_map number result) (stack_of number elements.now) }
{
    elements.first().copied()
}
