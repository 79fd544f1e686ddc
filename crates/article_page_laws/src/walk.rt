//! Laws of the values of articles: each is the contract of a function that does nothing.
ghost use Rattle.std.specs.Prelude.{◌≡◌, ◌+◌, ◌++◌, ℕ, ℤ, Bool, false, List, [], option_map};
ghost use Rattle.article_definitions.specs.ArticleValues.{page_values, values_of_blocks, values_of_inlines};
ghost use Rattle.article_definitions.specs.ArticleValues.{values_of_items};
ghost use Rattle.article_definitions.specs.BlockCalls.{run_blocks};
ghost use Rattle.article_definitions.specs.Calls.{measure, run};
ghost use Rattle.article_definitions.specs.Layouts.{Options, Tag, least_in, least_of, least_of_items, outermost};
ghost use Rattle.article_definitions.specs.Layouts.{parts_of, room_of_numbers, targets_in, targets_of};
ghost use Rattle.article_values.specs.Articles.{Blocks, Inlines, Items};
ghost use Rattle.article_page_laws.specs.Measures.{plain_measure, plain_sizing};
ghost use Rattle.article_page_laws.specs.Pages.{AreFilled, AreFilledBlocks, Place, laying_at, options_of, page_of};
ghost use Rattle.article_page_laws.specs.Pages.{parts_at, whole};
ghost use Rattle.block_layout.specs.Laid.{Laid, nothing_laid};
ghost use Rattle.render_sizes.specs.Extents.{extent};
ghost use Rattle.layout_values.specs.Lay.{laid_parts, lay};
ghost use Rattle.block_trait.specs.declared.options.RenderOptions.{RenderOptions};
ghost use Rattle.text_lines.specs.Columns.{text_columns};
ghost use Rattle.text_block_renderer.specs.PlainText.{plain_marking};
ghost use Rattle.text_decorators.specs.Texts.{plain_text};
ghost use Rattle.text_decorators.specs.Marks.{header, quote, unordered_item};

/// At least, an article's values ask for as many columns as the layout says that the article asks for, after the
/// marks of plain text: of blocks, of a list's items and of what a paragraph says. The mark of a heading has its level
/// and one more in columns, those of a quote and of a bullet have two, and the numbers of a list as many as the layout
/// leaves them.
pub fn values_ask_for_what_the_article_asks()
    ensures blocks { (o : Options) (blocks : Blocks)
        → (extent (plain_measure o) (values_of_blocks o blocks)).least ≡ least_of o blocks }
    ensures items { (o : Options) (items : Items)
        → (extent (plain_measure o) (values_of_items o items)).least ≡ least_of_items o items }
    ensures inlines { (o : Options) (inlines : Inlines)
        → (extent (plain_measure o) (values_of_inlines o inlines)).least ≡ least_in o inlines }
    ensures headings { (level : ℕ) → text_columns (plain_text (header level)) ≡ level + 1 }
    ensures quotes { text_columns (plain_text quote) ≡ 2 }
    ensures bullets { text_columns (plain_text unordered_item) ≡ 2 }
    ensures numbers { (o : Options) (first : ℤ) (items : ℕ)
        → (plain_measure o).prefixes.numbers first items ≡ room_of_numbers first items }
{}

/// The values of what a paragraph says, none of whose texts is empty, are laid out in a renderer of plain text as the
/// layout's calls of texts and breaks: what these calls make of the block of lines in the renderer, the values do, and
/// where the calls have no result, the values have none. The targets of its links stand after those before it.
pub fn values_of_a_paragraph_are_its_calls()
    ensures { (given : RenderOptions) (decorates : Bool) (min_wrap : ℕ) (held : Unit {0}) (place : Place)
        (targets : List (List ℕ)) (tag : Tag) (block : Laid Tag) (inlines : Inlines) → AreFilled inlines
        → block.awaits ≡ false → let o = options_of given decorates min_wrap in
        lay plain_marking (plain_sizing given o) (values_of_inlines o inlines)
        (laying_at given held place targets tag block)
        ≡ option_map (laying_at given held place (targets ++ targets_in o inlines) tag)
        (run (measure o place.width) (parts_of o tag targets inlines) block) }
{}

/// The values of an article's blocks, none of whose texts is empty, are laid out in a renderer of plain text as the
/// layout's calls of blocks: headings, quotes and items in renderers of their own, in the room that their prefixes
/// leave, and not at all where the calls have no result. The targets of their links stand after those before them.
pub fn values_of_blocks_are_their_calls()
    ensures { (given : RenderOptions) (decorates : Bool) (min_wrap : ℕ) (held : Unit {0}) (place : Place)
        (targets : List (List ℕ)) (block : Laid Tag) (blocks : Blocks) → AreFilledBlocks blocks
        → let o = options_of given decorates min_wrap in
        lay plain_marking (plain_sizing given o) (values_of_blocks o blocks)
        (laying_at given held place targets outermost block)
        ≡ option_map (laying_at given held place (targets ++ targets_of o blocks) outermost)
        (run_blocks o place.width targets blocks block) }
{}

/// All values of an article's page, none of whose texts is empty, are laid out on a page of plain text that holds
/// nothing: its block of lines is what the layout's calls of blocks make, or it has no result where they have none. The
/// targets of all links are noted in order.
pub fn values_of_a_page_are_its_calls()
    ensures { (given : RenderOptions) (decorates : Bool) (min_wrap : ℕ) (held : Unit {0}) (width : ℕ) (blocks : Blocks)
        → AreFilledBlocks blocks → let o = options_of given decorates min_wrap in
        laid_parts plain_marking (plain_sizing given o) (page_values o blocks) (whole given held width)
        ≡ option_map (parts_at given held (page_of width) (targets_of o blocks) outermost)
        (run_blocks o width [] blocks nothing_laid) }
{}
