//! Normal text with markers on its words.
ghost use Rattle.std.specs.Prelude.{◌≡◌, ◌⊎◌, [], ◌∷◌, ◌++◌, All, Bool, IfErr, IfOk, List, OnOk, chars, map};
ghost use Rattle.std.specs.Prelude.{string_bytes, ℕ};
ghost use Rattle.text_lines.specs.Tagged.{line_items, IsJoined};
ghost use Rattle.text_pieces.specs.Sources.{names};
ghost use Rattle.text_pieces.specs.Items.{markers_of};
ghost use Rattle.text_normal.specs.Units.{Letter};
ghost use Rattle.text_normal.specs.NormalStates.{HasRead};
ghost use Rattle.text_normal.specs.Riders.{Rider, ride};
ghost use Rattle.text_normal.specs.MarkedTags.{tag_seen};

use crate::marked_tag::MarkedTag;
use crate::normal::NormalText;
use crate::shown::{Settled, settle};
use crate::word_ends::{ends_in_word, from_word};
use std::alloc::Global;
use text_lines::EqualCopy;
use text_pieces::{BlockError, LaidText, Piece, names_before, split_before};

/// Normal text whose markers ride on its words: one after a word's character stays there, another waits for the next
/// word.
#[derive(Drop)]
pub(crate) struct MarkedText<T> {
    width: usize,
    text: NormalText<MarkedTag<T>>,
    /// The names of markers that wait for a word.
    waiting: Vec<String>,
    in_word: bool,
}

impl<T: EqualCopy + Drop> MarkedText<T> {
    ghost use Rattle.text_pieces.specs.Sources.{sourced, fragment, piece_sources};
    ghost use Rattle.text_normal.specs.Riders.{Carried, nothing_carried, settled_lines, settled_rest, shown_lines};
    ghost use Rattle.text_normal.specs.MarkedStates.{Carries, CarriesOn, MeetsWide, AddsWords, MeetsWideWord};

    /// No text yet.
    pub(crate) fn new(alloc: Global, width: usize, allow_overflow: bool) -> MarkedText<T>
        ensures { Carries T.seen width allow_overflow nothing_carried result }
    {
        MarkedText {
            width,
            text: NormalText::new(alloc, width, allow_overflow),
            waiting: Vec::new(alloc),
            in_word: false,
        }
    }

    /// Adds a piece after those before. What was refused is to be thrown away.
    pub(crate) fn add_piece(&mut self, piece: &Piece<T>) -> Result<(), BlockError>
        ensures kinds { IfErr result (λ e. (e ≡ BlockError.TooNarrow) ⊎ (e ≡ BlockError.Memory)) }
        ensures carries { OnOk result (CarriesOn T.seen self.old self.new (piece_sources T.seen piece.now)) }
        ensures narrow { result ≡ Err BlockError.TooNarrow
            → MeetsWide T.seen self.old (piece_sources T.seen piece.now) }
    {
        match piece {
            Piece::Text(piece) => self.add_text(piece.text.as_str(), &piece.main_tag),
            Piece::Fragment(name) => self.add_marker(name.as_str()),
        }
    }

    fn add_text(&mut self, text: &str, tag: &T) -> Result<(), BlockError>
        ensures kinds { IfErr result (λ e. (e ≡ BlockError.TooNarrow) ⊎ (e ≡ BlockError.Memory)) }
        ensures carries { OnOk result ((further : T.Seen)
            → CarriesOn T.seen self.old self.new (sourced (chars text.now) (T.seen tag.now) further)) }
        ensures narrow { result ≡ Err BlockError.TooNarrow → (further : T.Seen)
            → MeetsWide T.seen self.old (sourced (chars text.now) (T.seen tag.now) further) }
    {
        let tag = MarkedTag::Plain(tag.copy(*self.waiting.allocator())?);
        let (front, back) = split_before(text, from_word(text));
        self.text.add_text(front, &tag)?;
        self.add_words(back, &tag)?;
        self.in_word = ends_in_word(text, self.width, self.in_word);
        Ok(())
    }

    /// Adds a text that begins with a word, on which the markers ride that waited; an empty one changes nothing.
    fn add_words(&mut self, text: &str, tag: &MarkedTag<T>) -> Result<(), BlockError>
        ensures kinds { IfErr result (λ e. (e ≡ BlockError.TooNarrow) ⊎ (e ≡ BlockError.Memory)) }
        ensures words { OnOk result (AddsWords T.seen self.old self.new (chars text.now) (tag_seen T.seen tag.now)) }
        ensures narrow { result ≡ Err BlockError.TooNarrow
            → MeetsWideWord T.seen self.old (chars text.now) (tag_seen T.seen tag.now) }
    {
        if text.is_empty() {
            return Ok(());
        }
        add_rides(&mut self.text, &self.waiting)?;
        self.waiting.clear();
        self.text.add_text(text, tag)
    }

    fn add_marker(&mut self, name: &str) -> Result<(), BlockError>
        ensures kinds { IfErr result (λ e. (e ≡ BlockError.TooNarrow) ⊎ (e ≡ BlockError.Memory)) }
        ensures carries { OnOk result (CarriesOn T.seen self.old self.new (fragment (chars name.now) ∷ [])) }
        ensures narrow { result ≡ Err BlockError.TooNarrow
            → MeetsWide T.seen self.old (fragment (chars name.now) ∷ []) }
    {
        let name = String::from_str(*self.waiting.allocator(), name)?;
        if self.in_word {
            add_ride(&mut self.text, name)
        } else {
            self.waiting.push(name)?;
            Ok(())
        }
    }

    /// The lines, and the markers that found no line or no word.
    pub(crate) fn into_laid(self, alloc: Global) -> Result<LaidText<T>, BlockError>
        ensures kinds { IfErr result (λ e. e ≡ BlockError.Memory) }
        ensures laid { IfOk result (λ laid. (width : ℕ) (overflow : Bool) (k : Carried T.Seen)
            → Carries T.seen width overflow k self
            → (map (line_items T.seen) laid.lines.items ≡ settled_lines [] (shown_lines width k.letters))
            × (names laid.waiting.items
            ≡ markers_of (settled_rest [] (shown_lines width k.letters)) ++ k.waiting)) }
        ensures joined { IfOk result (λ laid. All (IsJoined T.seen) laid.lines.items) }
    {
        let MarkedText { text, waiting, .. } = self;
        let lines = text.into_lines()?;
        let settled = settle(alloc, &lines)?;
        let Settled { lines, rest } = settled;
        let waiting = names_before(&rest, waiting)?;
        Ok(LaidText { lines, waiting })
    }
}

/// Adds a letter without columns for each name.
fn add_rides<T: EqualCopy + Drop>(
    text: &mut NormalText<MarkedTag<T>>,
    rides: &[String],
) -> Result<(), BlockError>
    ensures read { OnOk result ((width : ℕ) (overflow : Bool) (read : List (Letter (Rider T.Seen)))
        → HasRead (tag_seen T.seen) width overflow read text.old
        → HasRead (tag_seen T.seen) width overflow (read ++ map (λ name. ride name) (names rides.now)) text.new) }
    ensures kinds { IfErr result (λ e. (e ≡ BlockError.TooNarrow) ⊎ (e ≡ BlockError.Memory)) }
    ensures never { result ≡ Err BlockError.TooNarrow → (width : ℕ) (overflow : Bool)
        (read : List (Letter (Rider T.Seen))) → HasRead (tag_seen T.seen) width overflow read text.old → ⊥ }
{
    for name in rides {
        add_ride(text, String::from_str(*name.allocator(), name.as_str())?)?;
    }
    Ok(())
}

/// Adds a letter without columns that is tagged by the name.
fn add_ride<T: EqualCopy + Drop>(
    text: &mut NormalText<MarkedTag<T>>,
    name: String,
) -> Result<(), BlockError>
    ensures read { OnOk result ((width : ℕ) (overflow : Bool) (read : List (Letter (Rider T.Seen)))
        → HasRead (tag_seen T.seen) width overflow read text.old
        → HasRead (tag_seen T.seen) width overflow (read ++ ride (chars (string_bytes name)) ∷ []) text.new) }
    ensures kinds { IfErr result (λ e. (e ≡ BlockError.TooNarrow) ⊎ (e ≡ BlockError.Memory)) }
    ensures never { result ≡ Err BlockError.TooNarrow → (width : ℕ) (overflow : Bool)
        (read : List (Letter (Rider T.Seen))) → HasRead (tag_seen T.seen) width overflow read text.old → ⊥ }
{
    text.add_text("\u{2060}", &MarkedTag::Note(name))
}
