//! Whole scripts.

ghost use Rattle.std.specs.Prelude.{◌≡◌, IfOk, List};
ghost use Rattle.aql_syntax.specs.Lexis.{Lexeme, AreTokens, kind_of};
ghost use Rattle.aql_lex.specs.Texts.{Says, EachSays, text_of};
ghost use Rattle.aql_parse.specs.Words.{lexeme_of, lexemes};
ghost use Rattle.aql_parse.specs.Parsed.{Parsed, IsMark};

use crate::declarations::declaration;
use crate::fault::ParseFault;
use crate::refusal::Refusal;
use crate::words::{Word, number_in};
use aql_lex::laws::spans_and_texts;
use aql_lex::scan::text_at;
use aql_lex::signs::sign_of;
use aql_syntax::ast::Decls;
use aql_syntax::token::{Token, TokenKind};
use aql_value::Memory;
use std::alloc::Global;

/// The declarations of a script, from its tokens and its bytes.
///
/// The tokens are to be those of the source: of others nothing is promised. They are answered exactly where the tokens
/// have a reading, which is then the one reading. `Syntax { declaration }` comes exactly where the tokens begin with
/// `declaration` - 1 whole declarations, not with `declaration`, and are not all read.
pub fn script(alloc: Global, tokens: &[Token], source: &[u8]) -> Result<Decls, ParseFault>
    ensures { (ls : List Lexeme) → AreTokens source.now tokens.now ls → Parsed result ls }
{
    spans_and_texts();
    let words = words_of(alloc, source, tokens)?;
    declarations(alloc, source, &words)
}

// What each token says.
fn words_of(alloc: Global, source: &[u8], tokens: &[Token]) -> Result<Vec<Word>, Memory>
    ensures { IfOk result (λ ws. (ls : List Lexeme) → EachSays source.now tokens.now ls
        → lexemes source.now ws.items ≡ ls) }
{
    let mut words = Vec::new(alloc);
    let mut left = tokens;
    while let Some((token, later)) = left.split_first() {
        words.push(word_of(source, *token))?;
        left = later;
    }
    Ok(words)
}

// What a token says. A reserved word or sign that no sign is spelled as is taken for a name: the lexer gives none.
fn word_of(source: &[u8], token: Token) -> Word
    ensures { (l : Lexeme) → token.kind ≡ kind_of l → Says (text_of source.now token) l
        → lexeme_of source.now result ≡ l }
{
    match token.kind {
        TokenKind::Name => Word::Name(token),
        TokenKind::Number => Word::Number(number_in(text_at(source, token))),
        TokenKind::Text => Word::Text(token),
        TokenKind::Reserved => mark_of(source, token),
        TokenKind::Sign => mark_of(source, token),
    }
}

fn mark_of(source: &[u8], token: Token) -> Word
    ensures { (l : Lexeme) → IsMark l → Says (text_of source.now token) l → lexeme_of source.now
        result ≡ l }
{
    match sign_of(text_at(source, token)) {
        Some(sign) => Word::Mark(sign),
        None => Word::Name(token),
    }
}

// The declarations that the words spell, all of the words.
fn declarations(alloc: Global, source: &[u8], words: &[Word]) -> Result<Decls, ParseFault>
    ensures { Parsed result (lexemes source.now words.now) }
{
    let depth = words.len() as u64 + 1;
    let mut items = Vec::new(alloc);
    let mut rest = words;
    while !rest.is_empty() {
        match declaration(alloc, source, rest, depth) {
            Ok((found, behind)) => {
                items.push(found)?;
                rest = behind;
            }
            Err(Refusal::Memory) => return Err(ParseFault::Memory),
            Err(Refusal::Syntax) => {
                return Err(ParseFault::Syntax {
                    declaration: items.len() as u64 + 1,
                });
            }
        }
    }
    Ok(Decls { items })
}
