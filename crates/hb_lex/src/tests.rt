//! Tokens and places that were worked out by hand.
use super::{LexRefused, Token, TokenKind, tokens};
use hb_base::Span;
use std::alloc::{AllocError, Global};

/// The place of Lex for each text, and `None` for a text of tokens.
const PLACES: [(&str, Option<u32>); 36] = [
    ("", None),
    ("a.b", None),
    ("a..", Some(2)),
    ("a.b.c", Some(4)),
    ("a.b. c", None),
    (".5", Some(1)),
    ("5.x", Some(2)),
    ("5x", None),
    ("_.x", Some(2)),
    ("_. x", None),
    ("x._", None),
    ("fun.x", Some(4)),
    ("fun. x", None),
    ("S.Type", None),
    ("a.5", Some(2)),
    ("(*", Some(2)),
    ("(* (* *)", Some(8)),
    ("(* (* *) *)", None),
    ("(*)*)", None),
    ("(**)", None),
    ("(***)", None),
    ("*)", Some(0)),
    ("a.(**)", None),
    ("a.(*", Some(4)),
    ("a.b.(", None),
    ("x.(p).(p)", None),
    ("-", Some(1)),
    ("->", None),
    ("-x", Some(1)),
    ("=", Some(1)),
    (":=>", Some(2)),
    (":==", Some(3)),
    (": =>", None),
    ("'a", Some(0)),
    ("a'", None),
    ("\u{e9}", Some(0)),
];

fn place(alloc: Global, text: &str, longest: u32) -> Result<Option<u32>, AllocError> {
    if text.len() > 100 {
        return Ok(None);
    }
    match tokens(alloc, text.as_bytes(), 0, longest) {
        Ok(_) => Ok(None),
        Err(LexRefused::Lex { at }) => Ok(Some(at)),
        Err(_) => Err(AllocError),
    }
}

#[test]
fn places_stand_where_no_text_goes_on(rt: HostRuntime) -> Result<(), AllocError> {
    for (text, want) in PLACES {
        assert_eq!(rt; place(rt.alloc(), text, 255)?, want, "{text}");
    }
    // An identifier that is too long fails at the byte that passes the number.
    for (text, want) in [
        ("abc", None),
        ("abcd", Some(3)),
        ("abc.abcd", Some(7)),
        ("abc'", Some(3)),
    ] {
        assert_eq!(rt; place(rt.alloc(), text, 3)?, want, "{text}");
    }
    Ok(())
}

#[test]
fn spans_are_the_bytes_of_the_tokens(rt: HostRuntime) -> Result<(), LexRefused> {
    let read = tokens(rt.alloc(), b"Axiom a:_->S.t (*.*)5.", 3, 255)?;
    let want = [
        (TokenKind::Keyword, 0, 5),
        (TokenKind::Name, 6, 7),
        (TokenKind::Symbol, 7, 8),
        (TokenKind::Hole, 8, 9),
        (TokenKind::Symbol, 9, 11),
        (TokenKind::Name, 11, 14),
        (TokenKind::Number, 20, 21),
        (TokenKind::End, 21, 22),
    ];
    assert_eq!(rt; read.len(), want.len());
    for (token, (kind, from, to)) in read.iter().zip(want) {
        assert_eq!(rt;
            *token,
            Token {
                kind,
                span: Span { file: 3, from, to }
            }
        );
    }
    let broken = tokens(rt.alloc(), b"ab\xC3", 0, 255);
    assert!(rt; broken == Err(LexRefused::Utf8 { at: 2 }));
    Ok(())
}
