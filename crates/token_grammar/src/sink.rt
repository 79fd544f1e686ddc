ghost use Rattle.std.specs.Prelude.{◌≡◌, IfErr, IfOk};
ghost use Rattle.html_lexemes.specs.declared.fault.ParseFault.TheVariants.{Memory};
ghost use Rattle.token_grammar.specs.Items.{Item, end_of_file, item_of};
ghost use Rattle.token_grammar.specs.Kinds.{IsHearing};
ghost use Rattle.token_grammar.specs.Meaning.{Meaning};
ghost use Rattle.token_grammar.specs.Reading.{IsLawful};

use html_lexemes::states::State;
use html_lexemes::{LocalName, ParseFault, Token, TokenSinkResult};
use std::alloc::AllocError;

/// What tokens are emitted to. Contracts see an abstract state, and what the sink `means` by it: its step over what is
/// emitted, its reply, and whether the adjusted current node is foreign; nothing depends on the wording of errors or on
/// lines. A state in which a sink may be called is `ready`; what it `welcomes` there it refuses since allocation fails
/// alone.
pub trait TokenSink {
    /// What stands for an element in an answer.
    type Handle: Copy;

    ghost Abstract: { Type 0 };

    ghost state: { Self → Abstract };

    ghost means: { Meaning Abstract Self.Handle };

    ghost ready: { Abstract → Type 0 };

    ghost welcomes: { Abstract → Item → Type 0 };

    ghost close: { Abstract → Abstract };

    /// Takes a token that stands at a line, and says how the text after it is to be read. After a
    /// refusal nothing is known of the sink.
    fn process_token(
        &mut self,
        token: Token,
        line: u64,
    ) -> Result<TokenSinkResult<Self::Handle>, ParseFault>
        requires { ready (state self.old) }
        ensures state { IfOk result (λ _. state self.new ≡ means.step (state self.old) (item_of token)) }
        ensures reply { IfOk result (λ answer. answer ≡ means.reply (state self.old) (item_of token)) }
        ensures refused { welcomes (state self.old) (item_of token) → IfErr result (λ e. e ≡ Memory) };

    /// Says that nothing more is emitted. It is called once, after the end of the page.
    fn end(&mut self) -> Result<(), ParseFault>
        requires { ready (state self.old) }
        ensures closed { IfOk result (λ _. state self.new ≡ close (state self.old)) }
        ensures refused { (before : Abstract) → welcomes before end_of_file →
            state self.old ≡ means.step before end_of_file →
            IfErr result (λ e. e ≡ Memory) };

    /// Whether there is an adjusted current node, and it is foreign (WHATWG HTML, 13.2.4.2): then
    /// `<![CDATA[` opens text.
    fn adjusted_current_node_present_but_not_in_html_namespace(&self) -> bool
        requires { ready (state self.now) }
        ensures { result ≡ means.foreign (state self.now) };

    ghost lawful: { IsLawful means ready };

    ghost hearing: { IsHearing means welcomes };
}

/// How a page's text is read.
#[derive(Drop)]
pub struct TokenizerOpts {
    /// Whether errors are emitted with what stood there.
    pub exact_errors: bool,
    /// Whether a first U+FEFF is dropped.
    pub discard_bom: bool,
    /// The state to begin in; another than `Data`, `Plaintext` and `RawData` counts as none.
    pub initial_state: Option<State>,
    /// The name of the last start tag, which ends text that begins as an element's.
    pub last_start_tag_name: Option<LocalName>,
}

impl TokenizerOpts {
    /// Equal options: one configuration reads many pages. The error is allocation failure alone.
    pub fn try_clone(&self) -> Result<TokenizerOpts, AllocError>
        ensures { IfOk result (λ copy. copy ≡ self.now) }
    {
        Ok(TokenizerOpts {
            exact_errors: self.exact_errors,
            discard_bom: self.discard_bom,
            initial_state: self.initial_state,
            last_start_tag_name: clone_if_given(&self.last_start_tag_name)?,
        })
    }
}

fn clone_if_given(name: &Option<LocalName>) -> Result<Option<LocalName>, AllocError>
    ensures { IfOk result (λ copy. copy ≡ name.now) }
{
    match name {
        Some(name) => Ok(Some(name.try_clone()?)),
        None => Ok(None),
    }
}

impl Default for TokenizerOpts {
    ghost use Rattle.token_grammar.specs.FirstMode.{default_options};

    ghost is_default = { λ opts. opts ≡ default_options };

    fn default() -> TokenizerOpts {
        TokenizerOpts {
            exact_errors: false,
            discard_bom: true,
            initial_state: None,
            last_start_tag_name: None,
        }
    }
}
