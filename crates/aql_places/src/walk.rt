//! The walk over the words by the rules.
ghost use Rattle.std.specs.Prelude.{◌≤◌, OnOk, length};
ghost use Rattle.aql_places.specs.Places.{IsWithin, Keeps};

use crate::places::Part;
use crate::rules::rule;
use crate::scope::{Scope, begin_scope, end_scopes};
use crate::symbol::Symbol;
use crate::word::Word;
use aql_value::Memory;
use std::alloc::Global;

/// A symbol that is still to come; the first token of the part that it belongs to and that of the part around it, and how
/// many parts stand before them.
#[derive(Clone, Copy)]
pub(crate) struct Entry {
    symbol: Symbol,
    first: u64,
    outer: u64,
    before: u64,
}

/// Where the walk goes on with a test, if no generator and no match stands there: at that token, with so many symbols
/// still to come and so many parts.
#[derive(Clone, Copy)]
pub(crate) struct Attempt {
    at: u64,
    height: u64,
    parts: u64,
}

/// How far the walk has come.
#[derive(Drop)]
pub(crate) struct Walk {
    pub at: u64,
    pub furthest: u64,
    pub reached: Vec<Symbol>,
    pub parts: Vec<Part>,
    pub scopes: Vec<Scope>,
    stack: Vec<Entry>,
    attempt: Option<Attempt>,
}

// The turns that a word may take: more than there are rules from a script to a constant and back.
const TURNS: u64 = 200;

/// A walk that begins.
pub(crate) fn start(alloc: Global) -> Walk
    ensures { IsWithin 0 result }
{
    Walk {
        at: 0,
        furthest: 0,
        reached: Vec::new(alloc),
        parts: Vec::new(alloc),
        scopes: Vec::new(alloc),
        stack: Vec::new(alloc),
        attempt: None,
    }
}

/// Goes over the words, and says whether they are a script.
pub(crate) fn run(words: &[Word], walk: &mut Walk) -> Result<bool, Memory>
    requires { IsWithin (length words.now) walk.old }
    ensures { OnOk result (IsWithin (length words.now) walk.new) }
{
    walk.stack.push(Entry {
        symbol: Symbol::Script,
        first: 0,
        outer: 0,
        before: 0,
    })?;
    let turns = (words.len() as u64).saturating_add(1).saturating_mul(TURNS);
    for _turn in 0..turns {
        match walk.stack.pop() {
            None => return Ok(true),
            Some(entry) => {
                if !turn(words, walk, entry)? {
                    return Ok(false);
                }
            }
        }
    }
    Ok(false)
}

// Goes on with the symbol of an entry, or with a test in its place, and says whether the words allow it.
fn turn(words: &[Word], walk: &mut Walk, entry: Entry) -> Result<bool, Memory>
    requires { IsWithin (length words.now) walk.old }
    ensures { OnOk result (IsWithin (length words.now) walk.new) }
{
    if step(words, walk, entry)? {
        return Ok(true);
    }
    let is_test = go_back(walk)?;
    Ok(is_test)
}

// Goes on with the symbol of an entry, and says whether the words allow it.
fn step(words: &[Word], walk: &mut Walk, entry: Entry) -> Result<bool, Memory>
    requires { IsWithin (length words.now) walk.old }
    ensures { OnOk result (IsWithin (length words.now) walk.new) }
{
    let here = word_at(words, walk.at);
    match entry.symbol {
        Symbol::End => {
            finish(walk, entry)?;
            return Ok(true);
        }
        Symbol::Settled => {
            walk.attempt = None;
            return Ok(true);
        }
        Symbol::Binds | Symbol::Seen | Symbol::Unseen | Symbol::UnseenRow => {
            bind(walk, entry)?;
            return Ok(true);
        }
        Symbol::Next => return Ok(go_on(words, walk, true)),
        _ => look(walk, entry.symbol)?,
    }
    match entry.symbol {
        Symbol::Mark(sign) => Ok(go_on(words, walk, here == Some(Word::Mark(sign)))),
        Symbol::Name => Ok(go_on(
            words,
            walk,
            here == Some(Word::Name) || here == Some(Word::Reader),
        )),
        Symbol::Reader => Ok(go_on(words, walk, here == Some(Word::Reader))),
        _ => expand(words, walk, entry),
    }
}

fn word_at(words: &[Word], at: u64) -> Option<Word> {
    words.get(at as usize).copied()
}

// Goes past one word, where it is the one that is wanted.
fn go_on(words: &[Word], walk: &mut Walk, is_wanted: bool) -> bool
    requires { IsWithin (length words.now) walk.old }
    ensures { IsWithin (length words.now) walk.new }
{
    if is_wanted && walk.at < words.len() as u64 {
        walk.at += 1;
        return true;
    }
    false
}

// Notes that a symbol is looked for at the word that the walk has come to.
fn look(walk: &mut Walk, symbol: Symbol) -> Result<(), Memory>
    ensures { OnOk result (Keeps walk.old walk.new) }
{
    if walk.at > walk.furthest {
        walk.furthest = walk.at;
        walk.reached.clear();
    }
    if walk.at == walk.furthest {
        walk.reached.push(symbol)?;
    }
    Ok(())
}

// Ends a part, at the word that the walk has come to.
fn finish(walk: &mut Walk, entry: Entry) -> Result<(), Memory>
    ensures { OnOk result (Keeps walk.old walk.new) }
{
    let count = (walk.parts.len() as u64)
        .saturating_sub(entry.before)
        .saturating_add(1);
    let part = Part {
        from: entry.first.min(walk.at),
        to: walk.at,
        count,
    };
    walk.parts.push(part)?;
    Ok(())
}

// Notes from where to where names are seen, at the word that the walk has come to.
fn bind(walk: &mut Walk, entry: Entry) -> Result<(), Memory>
    ensures { OnOk result (Keeps walk.old walk.new) }
{
    let at = walk.at;
    match entry.symbol {
        Symbol::Binds => {
            walk.scopes.push(Scope::new(entry.first, at))?;
        }
        Symbol::Seen => begin_scope(&mut walk.scopes, at),
        Symbol::UnseenRow => end_scopes(&mut walk.scopes, entry.first, at, entry.outer),
        _ => end_scopes(&mut walk.scopes, entry.first, at, entry.first),
    }
    Ok(())
}

// Puts the symbols that stand for that of an entry in its place, and says whether there are any.
fn expand(words: &[Word], walk: &mut Walk, entry: Entry) -> Result<bool, Memory>
    requires { IsWithin (length words.now) walk.old }
    ensures { OnOk result (IsWithin (length words.now) walk.new) }
{
    match rule(entry.symbol, word_at(words, walk.at)) {
        None => Ok(false),
        Some(symbols) => {
            if entry.symbol == Symbol::Qualifier {
                walk.attempt = Some(Attempt {
                    at: walk.at,
                    height: walk.stack.len() as u64,
                    parts: walk.parts.len() as u64,
                });
            }
            let inner = if begins_part(entry.symbol) {
                Entry {
                    symbol: entry.symbol,
                    first: walk.at,
                    outer: entry.first,
                    before: walk.parts.len() as u64,
                }
            } else {
                entry
            };
            put(&mut walk.stack, symbols, inner)?;
            Ok(true)
        }
    }
}

// Puts symbols of one part on the stack, the first on top.
fn put(stack: &mut Vec<Entry>, symbols: &[Symbol], part: Entry) -> Result<(), Memory> {
    for symbol in symbols.iter().rev() {
        stack.push(Entry {
            symbol: *symbol,
            first: part.first,
            outer: part.outer,
            before: part.before,
        })?;
    }
    Ok(())
}

// Whether a part begins with a symbol: else it goes on with the part that an entry belongs to.
fn begins_part(symbol: Symbol) -> bool {
    match symbol {
        Symbol::Expression | Symbol::Or | Symbol::And | Symbol::Not | Symbol::Comparison => true,
        Symbol::Union | Symbol::Sum | Symbol::Product | Symbol::Application | Symbol::Pattern => {
            true
        }
        Symbol::Lambda | Symbol::Row | Symbol::Bounds | Symbol::Bound => true,
        Symbol::Qualifier | Symbol::Bindings => true,
        _ => false,
    }
}

// Goes back to the word where a generator or a match was looked for, and on with a test, and says whether there is one.
fn go_back(walk: &mut Walk) -> Result<bool, Memory>
    ensures { OnOk result (Keeps walk.old walk.new) }
{
    match walk.attempt {
        None => Ok(false),
        Some(attempt) => {
            walk.attempt = None;
            walk.at = walk.at.min(attempt.at);
            walk.parts.truncate(attempt.parts as usize);
            walk.stack.truncate(attempt.height as usize);
            walk.stack.push(Entry {
                symbol: Symbol::Expression,
                first: walk.at,
                outer: walk.at,
                before: attempt.parts,
            })?;
            Ok(true)
        }
    }
}
