//! The picture of a name that stands for nothing where it is used.
ghost use Rattle.std.specs.Prelude.{IfOk, IfSome};
ghost use Rattle.aql_explain.specs.Place.{IsPlaceIn};

use crate::Picture;
use crate::drawing::lines;
use crate::place::{Place, place_at};
use crate::sentence::push_words;
use crate::span::from_declaration;
use crate::wanted::push_quoted;
use aql_lex::fault::LexFault;
use aql_lex::lexer::tokens;
use aql_lex::scan::text_at;
use aql_places::{Places, Scope, Word, locate};
use aql_prelude::prelude;
use aql_syntax::ast::Decls;
use aql_syntax::sign::Sign;
use aql_syntax::token::Token;
use aql_value::Memory;
use std::alloc::Global;

// Names times what may stand under them: where there is more to look at, no name is looked for.
const MOST_LOOKS: u64 = 20_000_000;

// A script, what its tokens are, and its declarations before the one at fault.
#[derive(Clone, Copy)]
struct Names<'a> {
    script: &'a [u8],
    tokens: &'a [Token],
    words: &'a [Word],
    scopes: &'a [Scope],
    declared: &'a [Declared],
    prelude: &'a Decls,
    first: usize,
}

// A declaration: the token of its name, none where it has no name, and whether it is a macro.
#[derive(Clone, Copy)]
struct Declared {
    name: Option<usize>,
    is_macro: bool,
}

// What stands under a name where it is used.
#[derive(Clone, Copy, PartialEq, Eq)]
enum Meaning {
    Local,
    Value,
    Macro,
    None,
}

// A name that is used: its token, what stands under it, and whether it is applied.
#[derive(Clone, Copy)]
struct Used {
    at: usize,
    token: Token,
    meaning: Meaning,
    is_applied: bool,
}

/// The picture of the first name in the declaration of that number, counted from 1, that stands for no value where a value is
/// wanted, or for no macro where it is applied; none where each name stands for what is wanted. The script has a reading.
pub(crate) fn name_picture(alloc: Global, script: &[u8], n: u64) -> Result<Option<Picture>, Memory>
    ensures { IfOk result (λ o. IfSome o (λ p. IsPlaceIn script.now p.place)) }
{
    match tokens(alloc, script) {
        Ok(found) => picture_in(alloc, script, &found, n),
        Err(LexFault::Memory) => Err(Memory),
        Err(_) => Ok(None),
    }
}

fn picture_in(
    alloc: Global,
    script: &[u8],
    found: &[Token],
    n: u64,
) -> Result<Option<Picture>, Memory>
    ensures { IfOk result (λ o. IfSome o (λ p. IsPlaceIn script.now p.place)) }
{
    let own = from_declaration(script, found, n);
    let first = found.len().saturating_sub(own.len());
    let places = locate(alloc, found, script)?;
    picture_among(alloc, script, found, &places, first)
}

fn picture_among(
    alloc: Global,
    script: &[u8],
    found: &[Token],
    places: &Places,
    first: usize,
) -> Result<Option<Picture>, Memory>
    ensures { IfOk result (λ o. IfSome o (λ p. IsPlaceIn script.now p.place)) }
{
    let declared = declared_before(alloc, &places.words, first)?;
    picture_behind(alloc, script, found, places, &declared, first)
}

fn picture_behind(
    alloc: Global,
    script: &[u8],
    found: &[Token],
    places: &Places,
    declared: &[Declared],
    first: usize,
) -> Result<Option<Picture>, Memory>
    ensures { IfOk result (λ o. IfSome o (λ p. IsPlaceIn script.now p.place)) }
{
    let prelude = prelude(alloc)?;
    let names = Names {
        script,
        tokens: found,
        words: &places.words,
        scopes: &places.scopes,
        declared,
        prelude: &prelude,
        first,
    };
    picture_of(alloc, names, script)
}

fn picture_of(alloc: Global, names: Names, script: &[u8]) -> Result<Option<Picture>, Memory>
    ensures { IfOk result (λ o. IfSome o (λ p. IsPlaceIn script.now p.place)) }
{
    match first_lacking(&names) {
        None => Ok(None),
        Some(used) => match place_at(script, used.token.from, used.token.to) {
            None => Ok(None),
            Some(place) => {
                let text = name_text(alloc, &names, &place, used)?;
                Ok(Some(Picture { place, text }))
            }
        },
    }
}

fn name_text(alloc: Global, names: &Names, place: &Place, used: Used) -> Result<Vec<u8>, Memory> {
    let mut text = lines(alloc, names.script, place)?;
    push_lack(names, used, &mut text)?;
    text.extend_from_slice(b"\n")?;
    Ok(text)
}

// Says what is lacking.
fn push_lack(names: &Names, used: Used, text: &mut Vec<u8>) -> Result<(), Memory> {
    let name = text_at(names.script, used.token);
    match used.meaning {
        Meaning::None => {
            if used.is_applied {
                push_quoted(b"no macro of the name ", name, text)?;
                return push_words(b" is declared here", text);
            }
            push_quoted(b"no value of the name ", name, text)?;
            push_words(b" is declared here", text)?;
            if is_compared(names, used.at) {
                push_words(b", and a name in a pattern without `\\` is compared", text)?;
            }
            Ok(())
        }
        Meaning::Macro => {
            push_quoted(b"", name, text)?;
            push_words(b" is a macro: it is applied, `", text)?;
            push_words(name, text)?;
            push_words(b"!x`, and is no value", text)
        }
        Meaning::Local => {
            push_quoted(b"", name, text)?;
            push_words(b" is a local name, which has a value, and no macro", text)
        }
        Meaning::Value => {
            push_quoted(b"", name, text)?;
            push_words(b" is a value and no macro", text)
        }
    }
}

// The declarations before a token.
fn declared_before(alloc: Global, words: &[Word], first: usize) -> Result<Vec<Declared>, Memory> {
    let mut found = Vec::new(alloc);
    let mut begins = true;
    let mut open: u64 = 0;
    for at in 0..first {
        if begins {
            found.push(declared_at(words, at))?;
        }
        begins = false;
        match words.get(at) {
            Some(Word::Mark(Sign::Open | Sign::OpenBrace | Sign::OpenBracket)) => {
                open = open.saturating_add(1);
            }
            Some(Word::Mark(Sign::Close | Sign::CloseBrace | Sign::CloseBracket)) => {
                open = open.saturating_sub(1);
            }
            Some(Word::Mark(Sign::Semicolon)) => begins = open == 0,
            _ => (),
        }
    }
    Ok(found)
}

// The declaration that begins at a token: its name stands behind a word and a backslash.
fn declared_at(words: &[Word], at: usize) -> Declared {
    match words.get(at) {
        Some(Word::Mark(Sign::Val | Sign::Readval)) => Declared {
            name: at.checked_add(2),
            is_macro: false,
        },
        Some(Word::Mark(Sign::Macro)) => Declared {
            name: at.checked_add(2),
            is_macro: true,
        },
        _ => Declared {
            name: None,
            is_macro: false,
        },
    }
}

// The first name of the declaration at fault that stands for something else than is wanted; of those that stand for nothing one
// in the place of a pattern, where there is one.
fn first_lacking(names: &Names) -> Option<Used> {
    let end = end_of(names);
    let count = (end.saturating_sub(names.first)) as u64;
    let looks = (names.declared.len() as u64)
        .saturating_add(names.scopes.len() as u64)
        .saturating_add(count)
        .saturating_mul(count);
    if looks > MOST_LOOKS {
        return None;
    }
    for at in names.first..end {
        if let Some(used) = used_at(names, at) {
            if is_lacking(used) {
                return Some(in_pattern(names, used, end));
            }
        }
    }
    None
}

// The token behind the declaration at fault.
fn end_of(names: &Names) -> usize {
    let mut open: u64 = 0;
    for at in names.first..names.tokens.len() {
        match names.words.get(at) {
            Some(Word::Mark(Sign::Open | Sign::OpenBrace | Sign::OpenBracket)) => {
                open = open.saturating_add(1);
            }
            Some(Word::Mark(Sign::Close | Sign::CloseBrace | Sign::CloseBracket)) => {
                open = open.saturating_sub(1);
            }
            Some(Word::Mark(Sign::Semicolon)) => {
                if open == 0 {
                    return at;
                }
            }
            _ => (),
        }
    }
    names.tokens.len()
}

// Whether something else is wanted there.
fn is_lacking(used: Used) -> bool {
    match used.meaning {
        Meaning::None => true,
        Meaning::Macro => !used.is_applied,
        Meaning::Local | Meaning::Value => used.is_applied,
    }
}

// Of a name that stands for nothing, its first use in the place of a pattern.
fn in_pattern(names: &Names, used: Used, end: usize) -> Used {
    if used.meaning != Meaning::None || used.is_applied {
        return used;
    }
    let name = text_at(names.script, used.token);
    for at in names.first..end {
        if is_compared(names, at) {
            if let Some(other) = used_at(names, at) {
                if other.meaning == Meaning::None && text_at(names.script, other.token) == name {
                    return other;
                }
            }
        }
    }
    used
}

// Whether the token stands before `<-` or `==`, as a pattern does.
fn is_compared(names: &Names, at: usize) -> bool {
    match names.words.get(at.saturating_add(1)) {
        Some(Word::Mark(Sign::Arrow | Sign::DoubleEqual)) => true,
        _ => false,
    }
}

// The name that is used at a token: none that is bound there, and no reader behind `using`.
fn used_at(names: &Names, at: usize) -> Option<Used> {
    let before = match at.checked_sub(1) {
        Some(k) => names.words.get(k).copied(),
        None => None,
    };
    match names.words.get(at) {
        Some(Word::Name) => (),
        Some(Word::Reader) => {
            if before == Some(Word::Mark(Sign::Using)) {
                return None;
            }
        }
        _ => return None,
    }
    if before == Some(Word::Mark(Sign::Backslash)) {
        return None;
    }
    let token = names.tokens.get(at).copied()?;
    Some(Used {
        at,
        token,
        meaning: meaning_of(names, at, text_at(names.script, token)),
        is_applied: names.words.get(at.saturating_add(1)) == Some(&Word::Mark(Sign::Bang)),
    })
}

// What stands under a name at a token.
fn meaning_of(names: &Names, at: usize, name: &[u8]) -> Meaning {
    if is_local(names, at, name) {
        return Meaning::Local;
    }
    for declared in names.declared.iter().rev() {
        if is_named(names, *declared, name) {
            return if declared.is_macro {
                Meaning::Macro
            } else {
                Meaning::Value
            };
        }
    }
    for decl in names.prelude.items.iter() {
        if decl.name() == name {
            return Meaning::Macro;
        }
    }
    Meaning::None
}

// Whether a declaration has that name: one without a name of its own is `it`.
fn is_named(names: &Names, declared: Declared, name: &[u8]) -> bool {
    match declared.name {
        None => name == b"it".as_slice(),
        Some(at) => match names.tokens.get(at) {
            None => false,
            Some(token) => text_at(names.script, *token) == name,
        },
    }
}

// Whether a pattern of the declaration at fault binds the name where the token stands.
fn is_local(names: &Names, at: usize, name: &[u8]) -> bool {
    let first = names.first as u64;
    names.scopes.iter().any(|scope| scope.from >= first && binds(names, *scope, at, name))
}

// Whether a pattern binds the name where the token stands.
fn binds(names: &Names, scope: Scope, at: usize, name: &[u8]) -> bool {
    for bound in scope.from..scope.to {
        if scope.is_seen(bound, at as u64) && binds_at(names, bound as usize, name) {
            return true;
        }
    }
    false
}

// Whether the name is bound at a token.
fn binds_at(names: &Names, bound: usize, name: &[u8]) -> bool {
    match bound.checked_sub(1) {
        None => false,
        Some(before) => {
            names.words.get(before) == Some(&Word::Mark(Sign::Backslash))
                && match names.tokens.get(bound) {
                    None => false,
                    Some(token) => text_at(names.script, *token) == name,
                }
        }
    }
}
