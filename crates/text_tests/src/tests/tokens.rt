//! The tokens of texts, and how the texts end.

use crate::tests::assert_text;
use std::alloc::Global;
use std::process::Abort;
use std::test::Fail;
use turtle_lex::{LexFault, Lexer, Token, next};

/// Each line: a text, its tokens by kind and place, and how it ends.
const TEXTS: &str = r#"3. => Integer 0 1, Dot 1 2, Ok(None)
@prefix a: <urn:x> a:b a a:c . => LanguageTag 0 7, Namespace 8 10, Iri 11 18, PrefixedName 19 22, A 23 24, PrefixedName 25 28, Dot 29 30, Ok(None)
p:b. _:a. => PrefixedName 0 3, Dot 3 4, BlankLabel 5 8, Dot 8 9, Ok(None)
'''a''b'''"" => LongSingleString 0 10, String 10 12, Ok(None)
-1.5e3^^truex => Double 0 6, DoubleCaret 6 8, True 8 12, Err(BadByte(12))
.5 +1 # c => Decimal 0 2, Integer 3 5, Ok(None)
"ab => Err(Unclosed(0))
 """a" => Err(Unclosed(1))
<a b> => Err(BadByte(2))
"\uD8" => Err(BadByte(4))
a:\x => Namespace 0 2, Err(BadByte(2))
@en- => LanguageTag 0 3, Err(BadByte(3))
× => Err(BadByte(0))"#;

// The tokens of a text and how it ends: after the last one `next` answers alike again.
fn told(alloc: Global, bytes: &[u8]) -> Result<String, Fail> {
    let mut text = String::new(alloc);
    push_tokens(alloc, &mut text, bytes)?;
    Ok(text)
}

fn push_tokens(alloc: Global, text: &mut String, bytes: &[u8]) -> Result<(), Fail> {
    let mut lexer = Lexer::new(bytes);
    for _ in 0..=bytes.len() {
        let Ok(Some(token)) = next(&mut lexer) else {
            break;
        };
        push_token(alloc, text, token)?;
    }
    push_last(alloc, text, next(&mut lexer))
}

fn push_token(alloc: Global, text: &mut String, token: Token) -> Result<(), Fail> {
    let word = format!(in alloc; "{:?} {} {}, ", token.kind, token.at, token.upto)?;
    text.push_str(word.as_str())?;
    Ok(())
}

fn push_last(
    alloc: Global,
    text: &mut String,
    last: Result<Option<Token>, LexFault>,
) -> Result<(), Fail> {
    let word = format!(in alloc; "{last:?}")?;
    text.push_str(word.as_str())?;
    Ok(())
}

fn assert_reads(rt: &impl Abort, alloc: Global, line: &str) -> Result<(), Fail> {
    let (text, wanted) = line.split_once(" => ").unwrap_or((line, ""));
    let read = told(alloc, text.as_bytes())?;
    assert_text(rt, read.as_str(), wanted);
    Ok(())
}

#[test]
fn tokens(rt: HostRuntime) -> Result<(), Fail> {
    for line in TEXTS.lines() {
        assert_reads(&rt, rt.alloc(), line)?;
    }
    Ok(())
}

#[test]
fn marks_are_left_out(rt: HostRuntime) -> Result<(), Fail> {
    let marked = told(rt.alloc(), b"\xEF\xBB\xBF# mark\n.")?;
    assert_text(&rt, marked.as_str(), "Dot 10 11, Ok(None)");
    Ok(())
}

#[test]
fn refuses_what_is_no_utf8(rt: HostRuntime) -> Result<(), Fail> {
    let broken = told(rt.alloc(), b". \xFF")?;
    assert_text(&rt, broken.as_str(), "Err(NotUtf8(2))");
    Ok(())
}

// No front of a text goes on without end.
#[test]
fn every_front(rt: HostRuntime) {
    let text =
        b"@base <\\u00e9>. PREFIX p: <b> _:a.b p:c%20\\- '\\n' \"\"\"x\"y\"\"\" +1 .5 2e-3 true,false;[](a)^^ # c";
    for length in 0..=text.len() {
        let mut lexer = Lexer::new(&text[..length]);
        let mut ends = false;
        for _ in 0..=length {
            ends = !matches!(next(&mut lexer), Ok(Some(_)));
            if ends {
                break;
            }
        }
        assert!(rt; ends);
    }
}
