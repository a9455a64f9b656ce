//! Tokens and faults by the rules, row by row.
use cd_lex::{LexFault, TokenKind, next_token};
use std::test::Fail;

/// What is expected of one text: the kind, the place and the length of its first token.
type Row = (&'static str, TokenKind, u32, usize);

const TOKENS: [Row; 38] = [
    ("a", TokenKind::Lower, 0, 1),
    ("aB_9z(", TokenKind::Lower, 0, 5),
    ("X1_a,", TokenKind::Upper, 0, 4),
    ("$true.", TokenKind::Dollar, 0, 5),
    ("$$distinct(", TokenKind::Dollar, 0, 10),
    ("'a'", TokenKind::Quoted, 0, 3),
    ("'a\\'b' c", TokenKind::Quoted, 0, 6),
    ("'\\\\'", TokenKind::Quoted, 0, 4),
    ("'say \"x\"'", TokenKind::Quoted, 0, 9),
    ("\"x y\"", TokenKind::Object, 0, 5),
    ("\"\"", TokenKind::Object, 0, 2),
    ("\"a\\\"b\"", TokenKind::Object, 0, 6),
    ("0", TokenKind::Number, 0, 1),
    ("007a", TokenKind::Number, 0, 3),
    ("-5", TokenKind::Number, 0, 2),
    ("+12)", TokenKind::Number, 0, 3),
    ("- 5", TokenKind::Other, 0, 1),
    ("+a", TokenKind::Other, 0, 1),
    ("1.5E-3", TokenKind::Number, 0, 6),
    ("1.5e+3E4", TokenKind::Number, 0, 6),
    ("1/2", TokenKind::Number, 0, 3),
    ("1/2.5", TokenKind::Number, 0, 3),
    ("1.", TokenKind::Number, 0, 1),
    ("1/", TokenKind::Number, 0, 1),
    ("1E", TokenKind::Number, 0, 1),
    ("1E+", TokenKind::Number, 0, 1),
    ("1.5E-x", TokenKind::Number, 0, 3),
    ("2e7", TokenKind::Number, 0, 3),
    ("!=a", TokenKind::Sign, 0, 2),
    ("=a", TokenKind::Sign, 0, 1),
    ("!a", TokenKind::Other, 0, 1),
    ("! =", TokenKind::Other, 0, 1),
    ("/a", TokenKind::Other, 0, 1),
    (" \t\r\n\u{b}\u{c}f", TokenKind::Lower, 6, 1),
    ("% a comment\nb", TokenKind::Lower, 12, 1),
    ("% a\rb\nc", TokenKind::Lower, 6, 1),
    ("/* a */ /**/ d", TokenKind::Lower, 13, 1),
    ("/*/ * **/e", TokenKind::Lower, 9, 1),
];

#[test]
fn tokens_by_the_rules(rt: HostRuntime) {
    for (text, kind, start, length) in TOKENS {
        if text.len() < 1000 {
            match next_token(text.as_bytes(), 0) {
                Ok(Some(token)) => {
                    assert_eq!(rt; token.kind, kind, "the kind in {text}");
                    assert_eq!(rt; token.start, start, "the place in {text}");
                    assert_eq!(rt; token.slice.len(), length, "the length in {text}");
                }
                _ => assert!(rt; false, "no token in {text}"),
            }
        }
    }
}

/// Each one-byte sign, and each other token.
#[test]
fn tokens_of_one_byte(rt: HostRuntime) {
    for (text, kind) in [
        ("()[],.:~=|", TokenKind::Sign),
        ("&@!?<>*+-^;{}/", TokenKind::Other),
    ] {
        let bytes = text.as_bytes();
        if bytes.len() < 1000 {
            for at in 0..bytes.len() {
                match next_token(bytes, at) {
                    Ok(Some(token)) => {
                        assert_eq!(rt; token.kind, kind, "at {at} of {text}");
                        assert_eq!(rt; token.slice.len(), 1, "at {at} of {text}");
                    }
                    _ => assert!(rt; false, "no token at {at} of {text}"),
                }
            }
        }
    }
}

const FAULTS: [(&str, LexFault); 17] = [
    ("_a", LexFault::BadByte(0)),
    (" #", LexFault::BadByte(1)),
    ("`", LexFault::BadByte(0)),
    ("\\", LexFault::BadByte(0)),
    ("\u{e9}", LexFault::BadByte(0)),
    ("$", LexFault::BadByte(0)),
    ("$A", LexFault::BadByte(0)),
    ("$$$x", LexFault::BadByte(0)),
    ("''", LexFault::BadByte(1)),
    (" '' ", LexFault::BadByte(2)),
    ("'a\\b'", LexFault::BadByte(2)),
    ("'a\nb'", LexFault::BadByte(2)),
    ("\"a\\", LexFault::BadByte(2)),
    ("'a\\\"'", LexFault::BadByte(2)),
    (" 'abc", LexFault::OpenQuote(1)),
    ("\"a\\\"", LexFault::OpenQuote(0)),
    ("% a\n/* b *", LexFault::OpenComment(4)),
];

#[test]
fn faults_by_the_rules(rt: HostRuntime) {
    for (text, fault) in FAULTS {
        if text.len() < 1000 {
            match next_token(text.as_bytes(), 0) {
                Err(found) => assert_eq!(rt; found, fault, "in {text}"),
                _ => assert!(rt; false, "no fault in {text}"),
            }
        }
    }
}

#[test]
fn nothing_behind_gaps(rt: HostRuntime) -> Result<(), Fail> {
    for text in ["", " \n", "% the end", "/* a */ % b\n"] {
        if text.len() < 1000 {
            let next = next_token(text.as_bytes(), 0).ok().ok_or("a fault")?;
            assert!(rt; next.is_none(), "a token in {text}");
        }
    }
    Ok(())
}
