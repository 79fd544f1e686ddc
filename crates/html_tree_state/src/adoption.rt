//! The adoption agency (WHATWG HTML, 13.2.6.4.7).
ghost use Rattle.std.specs.Prelude.{◌≡◌, IfErr, IfOk, OnOk, Some, true};
ghost use Rattle.tree_formatting.specs.Entries.{is_listed, tag_in, up_to_marker};
ghost use Rattle.tree_forest.specs.Orders.{IsForest, IsIn};
ghost use Rattle.html_lexemes.specs.declared.fault.ParseFault.TheVariants.{Memory};
ghost use Rattle.tree_model.specs.Adoption.{adopted, adoption, is_current_unlisted as is_unlisted, nearer, stepped};
ghost use Rattle.tree_model.specs.Adoption.{turn, turn_with as turn_by};
ghost use Rattle.tree_model.specs.Building.{seen};
ghost use Rattle.tree_model.specs.CanAdopt.{CanAdopt};
ghost use Rattle.tree_model.specs.Formatting.{unlisted};
ghost use Rattle.tree_model.specs.Sound.{Sound};
ghost use Rattle.html_tree_state.specs.Turns.{turn_of, walk_of};
ghost use Rattle.tree_model.specs.Walks.{IsWalkedUp};

use crate::construction::Construction;
use html_lexemes::{LocalName, ParseFault, Tag};
use tree_forest::TreeSink;
use tree_model::{adopting_keeps_sound, laws_of_forests, position};
use tree_names::ElementSet;

// how many turns an end tag has
const MOST_TURNS: usize = 8;

// how many nodes between the furthest block and the formatting element stay listed
const MOST_COPIES: usize = 3;

// what a turn comes to: the end tag is done with, asks for another turn, or is any other end tag
enum TurnOutcome {
    Over,
    Again,
    OtherEnd,
}

// where the walk up from the furthest block stands: the last node, and the copy after which the formatting element's
// copy is to be listed
#[derive(Clone, Copy)]
struct WalkPoint<H> {
    last: H,
    bookmark: Option<H>,
}

impl<S: TreeSink> Construction<S> {
    /// Closes formatting elements for an end tag's name, where they needn't be nested well ("run the adoption agency
    /// algorithm").
    pub fn adoption_agency(&mut self, name: &LocalName) -> Result<(), ParseFault>
        requires { Sound (seen S.view self.old.held self.old.sink) }
        ensures seen { OnOk result (seen S.view self.new.held self.new.sink ≡ adoption name.now
            (seen S.view self.old.held self.old.sink)) }
        ensures sound { OnOk result (Sound (seen S.view self.new.held self.new.sink)) }
        ensures forest { IsForest (S.view.forest self.new.sink) }
        ensures memory { IfErr result (λ e. e ≡ Memory) }
    {
        if self.is_current_unlisted(name) {
            return self.pop();
        }
        let mut left = MOST_TURNS;
        'turns: while left > 0 {
            match self.adoption_turn(name)? {
                TurnOutcome::Over => return Ok(()),
                TurnOutcome::Again => left -= 1,
                TurnOutcome::OtherEnd => return self.process_end_tag_in_body(name),
            }
        }
        Ok(())
    }

    // whether the current node is of that name, and isn't listed
    fn is_current_unlisted(&self, name: &LocalName) -> bool
        requires { Sound (seen S.view self.now.held self.now.sink) }
        ensures { result ≡ is_unlisted name.now (seen S.view self.now.held self.now.sink) }
    {
        let Some(current) = self.current_node() else {
            return false;
        };
        ElementSet::Named(name).contains(self.sink.elem_name(current))
            && !self.held.formatting().contains(&self.sink, current)
    }

    // one turn
    fn adoption_turn(&mut self, name: &LocalName) -> Result<TurnOutcome, ParseFault>
        requires { Sound (seen S.view self.old.held self.old.sink) }
        ensures turn { IfOk result (λ outcome. turn_of outcome (seen S.view self.new.held self.new.sink)
            ≡ turn name.now (seen S.view self.old.held self.old.sink)) }
        ensures sound { OnOk result (Sound (seen S.view self.new.held self.new.sink)) }
        ensures forest { IsForest (S.view.forest self.new.sink) }
        ensures memory { IfErr result (λ e. e ≡ Memory) }
    {
        let Some(element) = self.held.formatting().last_named(name) else {
            return Ok(TurnOutcome::OtherEnd);
        };
        let Some(tag) = self.held.formatting().tag_of(&self.sink, element) else {
            return Ok(TurnOutcome::Over);
        };
        let tag = tag.try_clone()?;
        self.turn_with(element, tag)
    }

    // one turn with a formatting element
    fn turn_with(&mut self, element: S::Handle, tag: Tag) -> Result<TurnOutcome, ParseFault>
        requires sound { Sound (seen S.view self.old.held self.old.sink) }
        requires tagged { tag_in (S.view.number element) (seen S.view self.old.held self.old.sink).formatting
            ≡ Some tag }
        requires listed { is_listed (S.view.number element)
            (up_to_marker (seen S.view self.old.held self.old.sink).formatting) ≡ true }
        ensures turn { IfOk result (λ outcome. turn_of outcome (seen S.view self.new.held self.new.sink) ≡ turn_by
            (Some tag) (S.view.number element) (seen S.view self.old.held self.old.sink)) }
        ensures sound { OnOk result (Sound (seen S.view self.new.held self.new.sink)) }
        ensures forest { IsForest (S.view.forest self.new.sink) }
        ensures memory { IfErr result (λ e. e ≡ Memory) }
    {
        if !self.is_element_open(element) {
            self.remove_from_list(element);
            return Ok(TurnOutcome::Over);
        }
        if !self.is_element_in_scope(element) {
            return Ok(TurnOutcome::Over);
        }
        let Some(block) = self.furthest_block(element) else {
            self.pop_with(element)?;
            self.remove_from_list(element);
            return Ok(TurnOutcome::Over);
        };
        self.adopt(element, block, tag)?;
        Ok(TurnOutcome::Again)
    }

    // one turn with a formatting element and a furthest block
    fn adopt(&mut self, element: S::Handle, block: S::Handle, tag: Tag) -> Result<(), ParseFault>
        requires can { CanAdopt (S.view.number element) (S.view.number block)
            (seen S.view self.old.held self.old.sink) }
        requires tagged { tag_in (S.view.number element) (seen S.view self.old.held self.old.sink).formatting
            ≡ Some tag }
        ensures seen { OnOk result (seen S.view self.new.held self.new.sink ≡ adopted (S.view.number element)
            (S.view.number block) tag (seen S.view self.old.held self.old.sink)) }
        ensures sound { OnOk result (Sound (seen S.view self.new.held self.new.sink)) }
        ensures forest { IsForest (S.view.forest self.new.sink) }
        ensures memory { IfErr result (λ e. e ≡ Memory) }
    {
        let ancestor = self.element_above(element);
        let walk = self.walk_up(element, block)?;
        self.place_last(walk.last, ancestor)?;
        self.take_over(walk.bookmark, element, block, tag)?;
        Ok(())
    }

    // from the furthest block up to the formatting element
    fn walk_up(
        &mut self,
        element: S::Handle,
        block: S::Handle,
    ) -> Result<WalkPoint<S::Handle>, ParseFault>
        requires { CanAdopt (S.view.number element) (S.view.number block) (seen S.view self.old.held self.old.sink) }
        ensures walked { IfOk result (λ walk. IsWalkedUp (S.view.number element) (S.view.number block)
            (seen S.view self.old.held self.old.sink) (walk_of S.view.number walk (seen S.view self.new.held
            self.new.sink))) }
        ensures forest { IsForest (S.view.forest self.new.sink) }
        ensures memory { IfErr result (λ e. e ≡ Memory) }
    {
        laws_of_forests();
        let mut walk = WalkPoint {
            last: block,
            bookmark: None,
        };
        let Some(start) = position(self.held.open_elements(), &self.sink, block) else {
            return Ok(walk);
        };
        let mut index = start;
        'up: while index > 0 {
            index -= 1;
            let node = self.element_at(index);
            if self.sink.same_node(node, element) {
                return Ok(walk);
            }
            walk = self.take_step(node, start - index > MOST_COPIES, block, walk)?;
        }
        Ok(walk)
    }

    // one node of the walk: it leaves the list where it is late, the stack where it isn't listed, and is copied else
    fn take_step(
        &mut self,
        node: S::Handle,
        is_late: bool,
        block: S::Handle,
        walk: WalkPoint<S::Handle>,
    ) -> Result<WalkPoint<S::Handle>, ParseFault>
        requires sound { Sound (seen S.view self.old.held self.old.sink) }
        requires open { IsIn (S.view.number node) (seen S.view self.old.held self.old.sink).stack }
        requires last { IsIn (S.view.number walk.last) (nearer (S.view.number node) (seen S.view self.old.held
            self.old.sink).stack) }
        ensures seen { IfOk result (λ further. walk_of S.view.number further (seen S.view self.new.held self.new.sink)
            ≡ stepped (tag_in (S.view.number node) (seen S.view self.old.held self.old.sink).formatting) is_late
            (S.view.number block) (S.view.number node) (walk_of S.view.number walk (seen S.view self.old.held
            self.old.sink))) }
        ensures forest { IsForest (S.view.forest self.new.sink) }
        ensures memory { IfErr result (λ e. e ≡ Memory) }
    {
        let Some(tag) = self.held.formatting().tag_of(&self.sink, node) else {
            self.remove_from_stack(node);
            return Ok(walk);
        };
        if is_late {
            self.remove_from_list(node);
            self.remove_from_stack(node);
            return Ok(walk);
        }
        let tag = tag.try_clone()?;
        let copy = self.copy_element(node, tag, walk.last)?;
        if self.sink.same_node(walk.last, block) {
            return Ok(WalkPoint {
                last: copy,
                bookmark: Some(copy),
            });
        }
        Ok(WalkPoint {
            last: copy,
            bookmark: walk.bookmark,
        })
    }

    /// Takes an element's entry off the list of active formatting elements.
    pub fn remove_from_list(&mut self, element: S::Handle)
        requires { Sound (seen S.view self.old.held self.old.sink) }
        ensures seen { seen S.view self.new.held self.new.sink ≡ unlisted (S.view.number element)
            (seen S.view self.old.held self.old.sink) }
        ensures sound { Sound (seen S.view self.new.held self.new.sink) }
    {
        laws_of_forests();
        adopting_keeps_sound();
        self.held.unlist(&self.sink, element);
    }
}
