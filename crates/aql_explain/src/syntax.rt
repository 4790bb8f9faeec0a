//! The picture of a declaration that has no reading.
ghost use Rattle.std.specs.Prelude.{IfOk, IfSome};
ghost use Rattle.aql_explain.specs.Place.{IsPlaceIn};

use crate::Picture;
use crate::drawing::lines;
use crate::place::{Place, place_at};
use crate::sentence::push_words;
use crate::slip::{Slip, slip_of};
use crate::span::from_declaration;
use crate::view::{View, text_of, token_before};
use crate::wanted::{push_quoted, push_wanted};
use aql_lex::fault::LexFault;
use aql_lex::lexer::tokens;
use aql_places::{Places, locate};
use aql_syntax::token::Token;
use aql_value::Memory;
use std::alloc::Global;

/// The picture of the declaration of that number, counted from 1, which has no reading: the mark is under the first token
/// with which no script goes on, or under the slip that the tokens show.
pub(crate) fn syntax_picture(
    alloc: Global,
    script: &[u8],
    n: u64,
) -> Result<Option<Picture>, Memory>
    ensures { IfOk result (λ o. IfSome o (λ p. IsPlaceIn script.now p.place)) }
{
    match tokens(alloc, script) {
        Ok(found) => picture_in(alloc, script, from_declaration(script, &found, n)),
        Err(LexFault::Memory) => Err(Memory),
        Err(_) => Ok(None),
    }
}

// The picture of the first declaration of these tokens.
fn picture_in(alloc: Global, script: &[u8], own: &[Token]) -> Result<Option<Picture>, Memory>
    ensures { IfOk result (λ o. IfSome o (λ p. IsPlaceIn script.now p.place)) }
{
    let places = locate(alloc, own, script)?;
    picture_of(alloc, script, own, &places)
}

fn picture_of(
    alloc: Global,
    script: &[u8],
    own: &[Token],
    places: &Places,
) -> Result<Option<Picture>, Memory>
    ensures { IfOk result (λ o. IfSome o (λ p. IsPlaceIn script.now p.place)) }
{
    if places.whole {
        return Ok(None);
    }
    let view = View::new(script, own, places);
    let slip = slip_of(&view);
    let (from, to) = marked(&view, slip);
    match place_at(script, from, to) {
        None => Ok(None),
        Some(place) => {
            let text = syntax_text(alloc, &view, &place, slip)?;
            Ok(Some(Picture { place, text }))
        }
    }
}

// The bytes under which the mark stands: of the token at fault, or behind the last token.
fn marked(view: &View, slip: Slip) -> (u64, u64) {
    let end = match token_before(view) {
        Some(token) => token.to,
        None => 0,
    };
    match (slip, view.tokens.get(view.at)) {
        (Slip::Unended, _) => (end, end),
        (_, None) => (end, end),
        (Slip::Pair(_), Some(token)) => match view.tokens.get(view.at.saturating_add(1)) {
            Some(second) => (token.from, second.to),
            None => (token.from, token.to),
        },
        (_, Some(token)) => (token.from, token.to),
    }
}

fn syntax_text(alloc: Global, view: &View, place: &Place, slip: Slip) -> Result<Vec<u8>, Memory> {
    let mut text = lines(alloc, view.script, place)?;
    push_slip(view, slip, &mut text)?;
    text.extend_from_slice(b"\n")?;
    Ok(text)
}

// Says what the slip is, or what is wanted.
fn push_slip(view: &View, slip: Slip, text: &mut Vec<u8>) -> Result<(), Memory> {
    match slip {
        Slip::Known(words) | Slip::Pair(words) => push_words(words, text),
        Slip::Unended => push_words(b"a `;` is wanted behind the declaration", text),
        Slip::Reserved(token) => {
            push_quoted(b"", text_of(view, token), text)?;
            push_words(b" is a reserved word: take another name", text)
        }
        Slip::Unapplied(token) => {
            push_quoted(b"behind ", text_of(view, token), text)?;
            push_words(b" stands `!`", text)
        }
        Slip::Unopened(token) => {
            push_quoted(b"nothing is open that ", text_of(view, token), text)?;
            push_words(b" closes", text)
        }
        Slip::Other => push_wanted(view, text),
    }
}
