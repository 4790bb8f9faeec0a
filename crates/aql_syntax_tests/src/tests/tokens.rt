use aql_lex::fault::LexFault;
use aql_lex::lexer::tokens;
use aql_syntax::token::{Token, TokenKind};
use std::alloc::{AllocError, Global};
use std::process::Abort;

fn letter(kind: TokenKind) -> &'static str {
    match kind {
        TokenKind::Name => "N",
        TokenKind::Number => "D",
        TokenKind::Text => "T",
        TokenKind::Reserved => "W",
        TokenKind::Sign => "S",
    }
}

// The kinds and spans of tokens, as `N0-1` for a name, `D`, `T`, `W` for a word, `S`.
fn tell_tokens(alloc: Global, found: &[Token]) -> Result<String, AllocError> {
    let mut text = String::new(alloc);
    for token in found {
        let letter = letter(token.kind);
        let from = token.from;
        let to = token.to;
        write!(&mut text, "{letter}{from}-{to} ")?;
    }
    Ok(text)
}

fn fault(fault: &LexFault) -> (&'static str, u64) {
    match fault {
        LexFault::Text { at } => ("text", *at),
        LexFault::Deep { at } => ("deep", *at),
        LexFault::Memory => ("memory", 0),
    }
}

// The tokens of a script, or its fault.
fn tokens_or_fault(alloc: Global, script: &[u8]) -> Result<String, AllocError> {
    match tokens(alloc, script) {
        Ok(found) => tell_tokens(alloc, &found),
        Err(why) => {
            let (kind, at) = fault(&why);
            format!(in alloc; "{kind} {at}")
        }
    }
}

fn assert_seen(
    rt: &impl Abort,
    alloc: Global,
    script: &[u8],
    expected: &str,
) -> Result<(), AllocError> {
    let found = tokens_or_fault(alloc, script)?;
    assert_eq!(rt; found.as_str(), expected);
    drop(found);
    Ok(())
}

#[test]
fn scripts_have_their_tokens(rt: HostRuntime) -> Result<(), AllocError> {
    let rows: [(&[u8], &str); 24] = [
        (b"", ""),
        (b" \t\r\n", ""),
        (b"x'1_ 007", "N0-4 D5-8 "),
        (b"endx end", "N0-4 W5-8 "),
        (b"dim_8 dim_9 index_1 default", "W0-5 N6-11 W12-19 W20-27 "),
        (b"1x", "D0-1 N1-2 "),
        (b"a<=b", "N0-1 S1-3 N3-4 "),
        (b"a<-1", "N0-1 S1-3 D3-4 "),
        (b"a< -1", "N0-1 S1-2 S3-4 D4-5 "),
        (b"a=>==b", "N0-1 S1-3 S3-5 N5-6 "),
        (b"a<>=b", "N0-1 S1-3 S3-4 N4-5 "),
        (b"[[", "S0-1 S1-2 "),
        (b"(* a *) b (*(**) c", "N8-9 N17-18 "),
        (b"(* a", "text 0"),
        (b"x (*)", "text 2"),
        (b"(**)", ""),
        (b"\"a\\\"\\\\\\x4F\xff\" y", "T0-12 N13-14 "),
        (b"\"a\\n\"", "text 0"),
        (b"\"a\\x4\"", "text 0"),
        (b"\"a\x7f\"", "text 0"),
        (b"x \xc3\xa9", "text 2"),
        (b"340282366920938463463374607431768211455", "D0-39 "),
        (b"0340282366920938463463374607431768211456;", "text 0"),
        (b"_ ' 1", "text 2"),
    ];
    for (script, expected) in rows {
        assert_seen(&rt, rt.alloc(), script, expected)?;
    }
    Ok(())
}

// A part repeated that many times.
fn repeat_part(alloc: Global, times: u64, part: &[u8]) -> Result<Vec<u8>, AllocError> {
    let mut script = Vec::new(alloc);
    for _ in 0..times {
        script.extend_from_slice(part)?;
    }
    Ok(script)
}

fn begins_with(alloc: Global, script: &[u8], kind: &str) -> Result<bool, AllocError> {
    let found = tokens_or_fault(alloc, script)?;
    let begins = found.starts_with(kind);
    drop(found);
    Ok(begins)
}

// The same of a script that was made.
fn made_begins_with(
    alloc: Global,
    script: Result<Vec<u8>, AllocError>,
    kind: &str,
) -> Result<bool, AllocError> {
    let script = script?;
    let begins = begins_with(alloc, &script, kind);
    drop(script);
    begins
}

fn assert_seen_of(
    rt: &impl Abort,
    alloc: Global,
    script: Result<Vec<u8>, AllocError>,
    expected: &str,
) -> Result<(), AllocError> {
    let script = script?;
    let found = assert_seen(rt, alloc, &script, expected);
    drop(script);
    found
}

fn with_quote(script: Result<Vec<u8>, AllocError>) -> Result<Vec<u8>, AllocError> {
    let mut script = script?;
    script.push(b'"')?;
    Ok(script)
}

#[test]
fn deep_scripts_are_refused(rt: HostRuntime) -> Result<(), AllocError> {
    let rows: [(u64, &[u8], &str); 4] = [
        (401, b"(", "deep 400"),
        (401, b"let end ", "deep 3200"),
        (401, b"+", "deep 400"),
        (401, b"(+", "deep 400"),
    ];
    for (times, part, expected) in rows {
        let script = repeat_part(rt.alloc(), times, part);
        assert_seen_of(&rt, rt.alloc(), script, expected)?;
    }
    Ok(())
}

#[test]
fn scripts_at_the_limit_are_not_deep(rt: HostRuntime) -> Result<(), AllocError> {
    let rows: [(u64, &[u8]); 2] = [(400, b"("), (401, b"let,end")];
    for (times, part) in rows {
        let script = repeat_part(rt.alloc(), times, part);
        assert!(rt; !made_begins_with(rt.alloc(), script, "deep")?);
    }
    Ok(())
}

// A fault of text comes before one of depth.
#[test]
fn deep_scripts_may_have_a_fault_of_text(rt: HostRuntime) -> Result<(), AllocError> {
    let rows: [(u64, &[u8]); 6] = [
        (400, b"("),
        (401, b"("),
        (401, b"let end "),
        (401, b"let,end"),
        (401, b"+"),
        (401, b"(+"),
    ];
    for (times, part) in rows {
        let script = with_quote(repeat_part(rt.alloc(), times, part));
        assert!(rt; made_begins_with(rt.alloc(), script, "text")?);
    }
    Ok(())
}
