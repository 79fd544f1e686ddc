//! Bytes of a page, fed to a decoder and a parser.
ghost use Rattle.std.specs.Prelude.{◌≡◌, ◌++◌, ℕ, List, false, IfErr, IfOk, OnOk};
ghost use Rattle.html_lexemes.specs.declared.fault.ParseFault.TheVariants.{Memory};
ghost use Rattle.html_tree_builder.specs.Grown.{IsGrown};
ghost use Rattle.html_tree_builder.specs.Parsers.{Completes, IsFit, has_failed};
ghost use Rattle.rules_table.specs.State.{State};
ghost use Rattle.page_decoding.specs.ReplacedText.{replaced_text};

use html_lexemes::ParseFault;
use html_tree_builder::Parser;
use page_decoding::Utf8LossyDecoder;
use std::alloc::Global;
use tree_forest::TreeSink;

/// Reads a piece of a page: its text, as far as it is complete, goes to the parser.
pub(crate) fn feed<S: TreeSink>(
    alloc: Global,
    decoder: &mut Utf8LossyDecoder,
    parser: &mut Parser<S>,
    piece: &[u8],
) -> Result<(), ParseFault>
    requires fit { IsFit S.view parser.old }
    requires decodes { decoder.old.has_failed ≡ false }
    requires parses { has_failed parser.old ≡ false }
    ensures fit { IsFit S.view parser.new }
    ensures memory { IfErr result (λ e. e ≡ Memory) }
    ensures decodes { OnOk result (decoder.new.has_failed ≡ false) }
    ensures parses { OnOk result (has_failed parser.new ≡ false) }
    ensures reads { OnOk result ((rest : List ℕ) (final : State) → Completes S.view parser.new
        (replaced_text (decoder.new.held ++ rest)) final → Completes S.view parser.old
        (replaced_text (decoder.old.held ++ (piece.now ++ rest))) final) }
{
    let text = decoder.push(alloc, piece)?;
    parser.process(text)
}

/// Reads the end of a page: what the decoder holds back is the last of its text.
pub(crate) fn end<S: TreeSink + Drop>(
    alloc: Global,
    decoder: Utf8LossyDecoder,
    parser: Parser<S>,
) -> Result<S::Output, ParseFault>
where
    S::Output: Drop,
    requires fit { IsFit S.view parser }
    requires decodes { decoder.has_failed ≡ false }
    requires parses { has_failed parser ≡ false }
    ensures memory { IfErr result (λ e. e ≡ Memory) }
    ensures grown { IfOk result (λ output. IsGrown (Completes S.view parser (replaced_text decoder.held))
        (S.tree output) (S.tree_quirks output)) }
{
    let text = decoder.finish(alloc)?;
    parser.one(text)
}
