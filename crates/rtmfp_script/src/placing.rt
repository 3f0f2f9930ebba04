//! Lines of places that are read.
ghost use Rattle.std.specs.Prelude.{◌≡◌};
ghost use Rattle.rtmfp_script.specs.Fields.{rule_of};
ghost use Rattle.rtmfp_script.specs.Lines.{carry_of, place_at, place_of, translator_of};

use crate::address::{address, v4_host};
use crate::fields::{name, number, number16, split};
use crate::line::ScriptLine;
use rtmfp_text::Name;
use translators::Rule;

/// The rule that a word is.
#[tactic(auto, unfolding(crate::specs::Fields::rule_of))]
fn rule(word: &[u8]) -> Option<Rule>
    ensures { result ≡ rule_of word.now }
{
    if word == b"independent".as_slice() {
        return Some(Rule::Independent);
    }
    if word == b"dependent".as_slice() {
        return Some(Rule::Dependent);
    }
    None
}

#[tactic(auto, unfolding(crate::specs::Lines::translator_of))]
pub(crate) fn read_translator(rest: &[u8]) -> Option<ScriptLine>
    ensures { result ≡ translator_of rest.now }
{
    let (first, rest) = split(b' ', rest)?;
    let (second, rest) = split(b' ', rest)?;
    let (third, rest) = split(b' ', rest)?;
    let (fourth, rest) = split(b' ', rest)?;
    Some(ScriptLine::Translator {
        name: name(first)?,
        mapping: rule(second)?,
        filter: rule(third)?,
        host: v4_host(fourth)?,
        first: number16(rest)?,
    })
}

#[tactic(auto, unfolding(crate::specs::Lines::place_of))]
pub(crate) fn read_place(rest: &[u8]) -> Option<ScriptLine>
    ensures { result ≡ place_of rest.now }
{
    let (first, rest) = split(b' ', rest)?;
    place_at(name(first)?, rest)
}

/// Where an end is, and the translator that it is behind, where there is one.
#[tactic(auto, unfolding(crate::specs::Lines::place_at))]
fn place_at(name: Name, rest: &[u8]) -> Option<ScriptLine>
    ensures { result ≡ place_at name rest.now }
{
    match split(b' ', rest) {
        Some((first, rest)) => Some(ScriptLine::Place {
            name,
            at: address(first)?,
            behind: Some(crate::fields::name(rest)?),
        }),
        None => Some(ScriptLine::Place {
            name,
            at: address(rest)?,
            behind: None,
        }),
    }
}

#[tactic(auto, unfolding(crate::specs::Lines::carry_of))]
pub(crate) fn read_carry(rest: &[u8]) -> Option<ScriptLine>
    ensures { result ≡ carry_of rest.now }
{
    Some(ScriptLine::Carry {
        number: number(rest)?,
    })
}
