//! Superscript digits.
ghost use Rattle.std.specs.Prelude.{◌≡◌, ◌++◌, ◌∷◌, [], IfOk, OnOk, chars, map, string_bytes};
ghost use Rattle.std.specs.List.{list_all};
ghost use Rattle.render_values.specs.Arena.{IsFlat, values_of};
ghost use Rattle.render_values.specs.Raising.{are_digits, is_digit, is_number, raised_digit, raised_info};
ghost use Rattle.render_values.specs.Closing.{raised_second};

use crate::info::RenderInfo;
use crate::node::RenderNode;
use crate::style::RenderStyle;
use html_lexemes::Text;
use std::alloc::{AllocError, Global};

fn is_digit(c: char) -> bool
    ensures { result ≡ is_digit c }
{
    c >= '0' && c <= '9'
}

fn all_digits(text: &str) -> bool
    ensures { result ≡ list_all is_digit (chars text.now) }
{
    text.chars().all(|c| is_digit(c))
}

fn are_digits(info: &RenderInfo) -> bool
    ensures { result ≡ are_digits info.now }
{
    match info {
        RenderInfo::Text(text) => all_digits(text.as_str()),
        _ => false,
    }
}

// whether the nodes are one text of digits
pub(crate) fn is_number(nodes: &[RenderNode]) -> bool
    requires { IsFlat nodes.now }
    ensures { result ≡ is_number (values_of nodes.now) }
{
    match nodes.split_first() {
        Some((first, others)) => others.is_empty() && are_digits(&first.head.info),
        None => false,
    }
}

fn raised_digit(c: char) -> char
    ensures { result ≡ raised_digit c }
{
    match c {
        '1' => '\u{B9}',
        '2' => '\u{B2}',
        '3' => '\u{B3}',
        '0' => '\u{2070}',
        '4' => '\u{2074}',
        '5' => '\u{2075}',
        '6' => '\u{2076}',
        '7' => '\u{2077}',
        '8' => '\u{2078}',
        '9' => '\u{2079}',
        _ => c,
    }
}

fn raised_text(alloc: Global, text: &str) -> Result<String, AllocError>
    ensures { IfOk result (λ s. chars (string_bytes s) ≡ map raised_digit (chars text.now)) }
{
    let mut raised = String::new(alloc);
    for c in text.chars() {
        push_character(&mut raised, raised_digit(c))?;
    }
    Ok(raised)
}

fn push_character(text: &mut String, c: char) -> Result<(), AllocError>
    ensures { OnOk result (chars (string_bytes text.new) ≡ chars (string_bytes text.old) ++ c ∷ []) }
{
    text.push(c)?;
    Ok(())
}

fn raised_info(alloc: Global, info: &RenderInfo) -> Result<RenderInfo, AllocError>
    ensures { IfOk result (λ i. i ≡ raised_info info.now) }
{
    match info {
        RenderInfo::Text(text) => {
            let raised = raised_text(alloc, text.as_str())?;
            Ok(RenderInfo::Text(Text::from(raised)))
        }
        _ => Ok(RenderInfo::Nothing),
    }
}

/// What a text is whose digits are raised: its kind, and how it looks in what it stood in.
#[derive(Drop)]
pub(crate) struct Raised {
    pub(crate) info: RenderInfo,
    pub(crate) style: RenderStyle,
}

// the second of some nodes, raised, as it looks in the first
pub(crate) fn raised_second(alloc: Global, nodes: &[RenderNode]) -> Result<Raised, AllocError>
    ensures { IfOk result (λ r. r ≡ raised_second nodes.now) }
{
    match nodes {
        [first, second, ..] => {
            let info = raised_info(alloc, &second.head.info)?;
            let style = second.head.style.within(first.head.style);
            Ok(Raised { info, style })
        }
        [first] => Ok(Raised {
            info: RenderInfo::Nothing,
            style: first.head.style,
        }),
        [] => Ok(Raised {
            info: RenderInfo::Nothing,
            style: RenderStyle::plain(),
        }),
    }
}
