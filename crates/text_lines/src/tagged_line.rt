ghost use Rattle.std.specs.Prelude.{◌≡◌, ◌↔◌, [], ◌∷◌, ◌++◌, length, chars, string_bytes, IfErr, IfOk, OnOk, OnErr};
ghost use Rattle.std.specs.Prelude.{IsTrue};
ghost use Rattle.std.specs.Slice.Iter.{iter_rest};
ghost use Rattle.std.specs.Vec.Iter.{into_iter_items, into_iter_len};
ghost use Rattle.text_lines.specs.Columns.{text_columns};
ghost use Rattle.text_lines.specs.Elements.{elements_text};

use crate::columns::{Columns, UnicodeColumns};
use crate::equal_copy::EqualCopy;
use crate::joining::{
    are_joined, is_only_text, move_elements, move_marker, push_character, push_elements,
    push_front, push_marker, push_string, push_text, reserve_last,
};
use crate::line_iterators::{LineChars, TaggedStrings};
use crate::spaces::{MOST_SPACES, spaces};
use crate::tagged_string::{TaggedLineElement, columns_of};
use std::alloc::{AllocError, Global};
use std::{slice, vec};

/// A line of tagged text. What is pushed joins the text before it where their tags are equal.
#[derive(PartialEq)]
pub struct TaggedLine<T> {
    elements: Vec<TaggedLineElement<T>>,
    columns: usize,
    ghost counted: { columns ≡ text_columns (elements_text elements.items) },
}

impl<T: Drop> Drop for TaggedLine<T> {
    // One call wherever a line is dropped, whatever its texts are made of.
    fn drop(self) {
        let TaggedLine {
            elements: _,
            columns: _,
        } = self;
    }
}

impl<T: EqualCopy + Drop> TaggedLine<T> {
    ghost use Rattle.text_lines.specs.Tagged.{IsJoined, character, line_columns, line_items, marker, tagged};
    ghost use Rattle.std.specs.Prelude.{replicate};

    /// A line without text.
    pub fn new(alloc: Global) -> TaggedLine<T>
        ensures items { line_items T.seen result ≡ [] }
        ensures joined { IsJoined T.seen result }
    {
        TaggedLine {
            elements: Vec::new(alloc),
            columns: 0,
        }
    }

    /// A line of one text. The error is allocation failure alone.
    pub fn from_string(alloc: Global, s: String, tag: &T) -> Result<TaggedLine<T>, AllocError>
        ensures items { IfOk result (λ line. line_items T.seen line
            ≡ tagged (chars (string_bytes s)) (T.seen tag.now)) }
        ensures joined { IfOk result (IsJoined T.seen) }
    {
        let columns = columns_of(s.as_str());
        let mut line = TaggedLine::new(alloc);
        line.push_string(s, columns, tag.copy(alloc)?)?;
        Ok(line)
    }

    /// Whether the line holds neither text nor marker.
    pub fn is_empty(&self) -> bool
        ensures { IsTrue result ↔ (line_items T.seen self.now ≡ []) }
    {
        self.elements.iter().all(|element| element.is_empty())
    }

    /// Where this holds, no text is empty, and none stands next to one with an equal tag.
    pub fn is_joined(&self) -> bool
        ensures { IsTrue result → IsJoined T.seen self.now }
    {
        are_joined(&self.elements)
    }

    /// The columns of the line's text, the sum over its characters.
    pub fn width(&self) -> usize
        ensures { result ≡ line_columns (line_items T.seen self.now) }
    {
        self.columns
    }

    /// Takes everything off the line; it takes no memory.
    pub fn clear(&mut self)
        ensures items { line_items T.seen self.new ≡ [] }
        ensures joined { IsJoined T.seen self.new }
    {
        self.elements.clear();
        self.columns = 0;
    }

    /// Makes room for so many bytes more of text at the end; the line stays as it is. The error is allocation failure
    /// alone.
    pub fn reserve(&mut self, bytes: usize) -> Result<(), AllocError>
        ensures items { line_items T.seen self.new ≡ line_items T.seen self.old }
        ensures joined { IsJoined T.seen self.old → IsJoined T.seen self.new }
    {
        if self.elements.is_empty() {
            return Ok(());
        }
        reserve_last(&mut self.elements, bytes)
    }

    /// Adds a text at the end. The error is allocation failure alone, and leaves the line as it was.
    pub fn push_str(&mut self, text: &str, tag: &T) -> Result<(), AllocError>
        ensures ok { OnOk result (line_items T.seen self.new
            ≡ line_items T.seen self.old ++ tagged (chars text.now) (T.seen tag.now)) }
        ensures err { OnErr result (line_items T.seen self.new ≡ line_items T.seen self.old) }
        ensures joined { IsJoined T.seen self.old → IsJoined T.seen self.new }
    {
        self.push_counted(text, columns_of(text), tag)
    }

    /// Adds a text in front. The error is allocation failure alone, and leaves the line as it was.
    pub fn push_front(&mut self, text: &str, tag: &T) -> Result<(), AllocError>
        ensures ok { OnOk result (line_items T.seen self.new
            ≡ tagged (chars text.now) (T.seen tag.now) ++ line_items T.seen self.old) }
        ensures err { OnErr result (line_items T.seen self.new ≡ line_items T.seen self.old) }
        ensures joined { IsJoined T.seen self.old → IsJoined T.seen self.new }
    {
        let wider = self
            .columns
            .checked_add(columns_of(text))
            .ok_or(AllocError)?;
        push_front(&mut self.elements, text, tag)?;
        self.columns = wider;
        Ok(())
    }

    /// Adds a character at the end. The error is allocation failure alone, and leaves the line as it was.
    pub fn push_char(&mut self, c: char, tag: &T) -> Result<(), AllocError>
        ensures ok { OnOk result (line_items T.seen self.new
            ≡ line_items T.seen self.old ++ tagged (c ∷ []) (T.seen tag.now)) }
        ensures err { OnErr result (line_items T.seen self.new ≡ line_items T.seen self.old) }
        ensures joined { IsJoined T.seen self.old → IsJoined T.seen self.new }
    {
        let wider = self
            .columns
            .checked_add(UnicodeColumns::columns(c).unwrap_or(0))
            .ok_or(AllocError)?;
        push_character(&mut self.elements, c, tag)?;
        self.columns = wider;
        Ok(())
    }

    /// Adds a marker at the end: the start of the fragment of that name. The error is allocation failure alone, and
    /// leaves the line as it was.
    pub fn push_marker(&mut self, name: &str) -> Result<(), AllocError>
        ensures ok { OnOk result (line_items T.seen self.new
            ≡ line_items T.seen self.old ++ marker (chars name.now) ∷ []) }
        ensures err { OnErr result (line_items T.seen self.new ≡ line_items T.seen self.old) }
        ensures joined { IsJoined T.seen self.old → IsJoined T.seen self.new }
    {
        push_marker(&mut self.elements, name)
    }

    /// Moves a marker's name to the end, as `push_marker` adds one. The error is allocation failure alone, and leaves
    /// the line as it was.
    pub fn append_marker(&mut self, name: String) -> Result<(), AllocError>
        ensures ok { OnOk result (line_items T.seen self.new
            ≡ line_items T.seen self.old ++ marker (chars (string_bytes name)) ∷ []) }
        ensures err { OnErr result (line_items T.seen self.new ≡ line_items T.seen self.old) }
        ensures joined { IsJoined T.seen self.old → IsJoined T.seen self.new }
    {
        move_marker(&mut self.elements, name)
    }

    /// Adds another line at the end. The error is allocation failure alone, and leaves the line as it was.
    #[inline(always)]
    pub fn push_line(&mut self, other: &TaggedLine<T>) -> Result<(), AllocError>
        ensures ok { OnOk result (line_items T.seen self.new
            ≡ line_items T.seen self.old ++ line_items T.seen other.now) }
        ensures err { OnErr result (line_items T.seen self.new ≡ line_items T.seen self.old) }
        ensures joined { IsJoined T.seen self.old → IsJoined T.seen self.new }
    {
        let total = self.columns.checked_add(other.columns).ok_or(AllocError)?;
        push_elements(&mut self.elements, &other.elements)?;
        self.columns = total;
        Ok(())
    }

    /// Adds so many spaces at the end. The error is allocation failure alone, and may leave some of them.
    pub fn push_spaces(&mut self, count: usize, tag: &T) -> Result<(), AllocError>
        ensures ok { OnOk result (line_items T.seen self.new
            ≡ line_items T.seen self.old ++ replicate count (character 0x20 (T.seen tag.now))) }
        ensures joined { IsJoined T.seen self.old → IsJoined T.seen self.new }
    {
        let mut left = count;
        while left > 0 {
            let part = left.min(MOST_SPACES);
            self.push_str(spaces(part), tag)?;
            left -= part;
        }
        Ok(())
    }

    /// Moves what another line holds to the end, which leaves that one empty. The error is allocation failure alone,
    /// and leaves both lines as they were.
    pub fn append(&mut self, other: &mut TaggedLine<T>) -> Result<(), AllocError>
        ensures ok { OnOk result (line_items T.seen self.new
            ≡ line_items T.seen self.old ++ line_items T.seen other.old) }
        ensures empty { OnOk result (line_items T.seen other.new ≡ []) }
        ensures err { OnErr result (line_items T.seen self.new ≡ line_items T.seen self.old) }
        ensures kept { OnErr result (line_items T.seen other.new ≡ line_items T.seen other.old) }
        ensures joined { IsJoined T.seen self.old → IsJoined T.seen self.new }
    {
        let total = self.columns.checked_add(other.columns).ok_or(AllocError)?;
        move_elements(&mut self.elements, &mut other.elements)?;
        self.columns = total;
        other.columns = 0;
        Ok(())
    }

    /// The text and its tag, where the line is one text; else the line.
    pub fn into_only_text(self) -> Result<(String, T), TaggedLine<T>>
        ensures text { IfOk result (λ t. line_items T.seen self ≡ tagged (chars (string_bytes t.0)) (T.seen t.1)) }
        ensures line { IfErr result (λ line. line ≡ self) }
    {
        if !is_only_text(&self.elements) {
            return Err(self);
        }
        let TaggedLine {
            mut elements,
            columns,
        } = self;
        match elements.pop() {
            Some(TaggedLineElement::Str(string)) => Ok((string.s, string.tag)),
            _ => Err(TaggedLine { elements, columns }),
        }
    }

    /// Adds a text whose columns are known at the end. The error is allocation failure alone, and leaves the line as it
    /// was.
    pub fn push_counted(&mut self, text: &str, columns: usize, tag: &T) -> Result<(), AllocError>
        requires { columns ≡ text_columns (chars text.now) }
        ensures ok { OnOk result (line_items T.seen self.new
            ≡ line_items T.seen self.old ++ tagged (chars text.now) (T.seen tag.now)) }
        ensures err { OnErr result (line_items T.seen self.new ≡ line_items T.seen self.old) }
        ensures joined { IsJoined T.seen self.old → IsJoined T.seen self.new }
    {
        // No memory holds a text of more columns than a `usize` counts.
        let columns = self.columns.checked_add(columns).ok_or(AllocError)?;
        push_text(&mut self.elements, text, tag)?;
        self.columns = columns;
        Ok(())
    }

    /// Moves a text whose columns are known to the end. The error is allocation failure alone, and leaves the line as
    /// it was.
    pub fn push_string(&mut self, text: String, columns: usize, tag: T) -> Result<(), AllocError>
        requires { columns ≡ text_columns (chars (string_bytes text)) }
        ensures ok { OnOk result (line_items T.seen self.new
            ≡ line_items T.seen self.old ++ tagged (chars (string_bytes text)) (T.seen tag)) }
        ensures err { OnErr result (line_items T.seen self.new ≡ line_items T.seen self.old) }
        ensures joined { IsJoined T.seen self.old → IsJoined T.seen self.new }
    {
        let total = self.columns.checked_add(columns).ok_or(AllocError)?;
        push_string(&mut self.elements, text, tag)?;
        self.columns = total;
        Ok(())
    }
}

impl<T> TaggedLine<T> {
    ghost use Rattle.text_lines.specs.Tagged.{line_elements, line_text, line_strings};
    ghost use Rattle.text_lines.specs.Iterating.{chars_left, strings_left};

    /// The texts and markers, in order.
    pub fn iter(&self) -> slice::Iter<'_, TaggedLineElement<T>>
        ensures { iter_rest result ≡ line_elements self.now }
    {
        self.elements.iter()
    }

    /// The characters of the texts, in order; markers are left out.
    pub fn chars(&self) -> LineChars<'_, T>
        ensures { chars_left result ≡ line_text self.now }
    {
        LineChars::new(&self.elements)
    }

    /// The texts with their tags, in order; markers are left out.
    pub fn tagged_strings(&self) -> TaggedStrings<'_, T>
        ensures { strings_left result ≡ line_strings self.now }
    {
        TaggedStrings::new(&self.elements)
    }
}

impl<T: Drop> TaggedLine<T> {
    ghost use Rattle.text_lines.specs.Elements.{MapsTags};
    ghost use Rattle.text_lines.specs.Tagged.{line_elements};

    /// The same line, with what `f` makes of each text's tag; texts whose tags become equal stay apart. The
    /// error is allocation failure alone.
    pub fn map_tag<U: Drop, F: Fn(T) -> U>(self, f: &F) -> Result<TaggedLine<U>, AllocError>
        requires { F.IsAlwaysCallable f.now }
        ensures { IfOk result (λ line. MapsTags (F.post f.now) (line_elements self) (line_elements line)) }
    {
        let TaggedLine { elements, columns } = self;
        let mut mapped = Vec::new(*elements.allocator());
        for element in elements {
            mapped.push(element.map_tag(f))?;
        }
        Ok(TaggedLine {
            elements: mapped,
            columns,
        })
    }
}

impl<T: EqualCopy + Drop> TaggedLine<T> {
    ghost use Rattle.text_lines.specs.Elements.{CopiesAll};
    ghost use Rattle.text_lines.specs.Tagged.{line_elements, line_items, IsJoined};

    /// An equal line. The error is allocation failure alone.
    pub fn try_clone(&self) -> Result<TaggedLine<T>, AllocError>
        ensures elements { IfOk result (λ copy. CopiesAll T.seen (line_elements self.now) (line_elements copy)) }
        ensures items { IfOk result (λ copy. line_items T.seen copy ≡ line_items T.seen self.now) }
        ensures joined { IsJoined T.seen self.now → IfOk result (IsJoined T.seen) }
    {
        let mut elements = Vec::new(*self.elements.allocator());
        for element in &self.elements {
            elements.push(element.try_clone()?)?;
        }
        Ok(TaggedLine {
            elements,
            columns: self.columns,
        })
    }
}

impl<T: Drop> IntoIterator for TaggedLine<T> {
    ghost use Rattle.text_lines.specs.Tagged.{line_elements};

    type Item = TaggedLineElement<T>;

    type IntoIter = vec::IntoIter<TaggedLineElement<T>>;

    ghost into_iter_gives = { λ line it. (into_iter_items it ≡ line_elements line)
        × (into_iter_len it ≡ length (line_elements line)) };

    fn into_iter(self) -> vec::IntoIter<TaggedLineElement<T>> {
        let TaggedLine {
            elements,
            columns: _,
        } = self;
        elements.into_iter()
    }
}
