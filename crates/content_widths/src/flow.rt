//! The columns of a flow, as its texts come.
ghost use Rattle.std.specs.Prelude.{ℕ, ◌≡◌, [], ◌∷◌, ◌++◌, List, Option, chars};
ghost use Rattle.content_widths.specs.Flows.{FlowItem, block, flow_widths, greater, text as text_item};
ghost use Rattle.content_widths.specs.Reading.{Measures, running_in, widths_so_far};

use crate::reading::Reading;
use crate::widths::ContentWidths;
use text_pieces::WhiteSpace;

/// The columns that a flow asks for, as far as it has come. It holds no text.
#[derive(Drop)]
pub struct FlowWidths {
    most: Option<usize>,
    // what its ended stretches and its blocks ask for
    ended: ContentWidths,
    // the stretch of text that runs
    running: Option<Reading>,
}

impl FlowWidths {
    /// A flow of nothing, of which no stretch of text asks for more columns than `most`, if that is given.
    pub fn new(most: Option<usize>) -> FlowWidths
        ensures { Measures result most [] }
    {
        FlowWidths {
            most,
            ended: ContentWidths {
                narrowest: 0,
                widest: 0,
            },
            running: None,
        }
    }

    /// A text follows in a mode of white space.
    pub fn add_text(&mut self, mode: WhiteSpace, text: &str)
        ensures { (most : Option ℕ) (items : List FlowItem) → Measures self.old most items
            → Measures self.new most (items ++ text_item mode (chars text.now) ∷ []) }
    {
        // it parts nothing, in whatever mode it is
        if text.is_empty() {
            return;
        }
        if let Some(reading) = self.running_in(mode) {
            self.running = Some(reading.after_text(text));
            return;
        }
        self.ended = self.so_far();
        self.running = Some(Reading::new(mode).after_text(text));
    }

    /// A block follows, by the columns that it asks for; a line break is one that asks for none.
    pub fn add_block(&mut self, widths: ContentWidths)
        ensures { (most : Option ℕ) (items : List FlowItem) → Measures self.old most items
            → Measures self.new most (items ++ block widths ∷ []) }
    {
        self.ended = greater(self.so_far(), widths);
        self.running = None;
    }

    /// The columns that the flow asks for.
    pub fn widths(&self) -> ContentWidths
        ensures { (most : Option ℕ) (items : List FlowItem) → Measures self.now most items
            → result ≡ flow_widths most items }
    {
        self.so_far()
    }

    fn running_in(&self, mode: WhiteSpace) -> Option<Reading>
        ensures { result ≡ running_in self.now.running mode }
    {
        match self.running {
            Some(reading) if reading.is_in(mode) => Some(reading),
            _ => None,
        }
    }

    fn so_far(&self) -> ContentWidths
        ensures { result ≡ widths_so_far self.now }
    {
        match self.running {
            Some(reading) => greater(self.ended, reading.widths(self.most)),
            None => self.ended,
        }
    }
}

fn greater(one: ContentWidths, other: ContentWidths) -> ContentWidths
    ensures { result ≡ greater one other }
{
    ContentWidths {
        narrowest: one.narrowest.max(other.narrowest),
        widest: one.widest.max(other.widest),
    }
}
