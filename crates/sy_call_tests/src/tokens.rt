ghost use Rattle.std.specs.Prelude.{◌<◌, ◌^◌, length};

use std::alloc::Global;
use std::test::Fail;
use sy_base::{FileKind, Place, Refused};
use sy_lex::TokenKind::{Date, Number, Reserved, Sign as ASign, Str, Word};
use sy_lex::{Keyword, Sign, Token, TokenKind, end_place, tokens};

fn token(kind: TokenKind, from: u32, to: u32, line: u64, column: u64) -> Token {
    Token {
        kind,
        from,
        to,
        place: Place { line, column },
    }
}

#[test]
fn cuts_texts_into_tokens(rt: HostRuntime) -> Result<(), Fail> {
    let word = [b'x'; 64];
    let digits = [b'7'; 18];
    // 256 bytes of content.
    let mut plain = [b'x'; 258];
    plain[0] = b'"';
    plain[257] = b'"';
    // 256 bytes of content, of which the last is written as `\"`.
    let mut escaped = [b'x'; 259];
    escaped[0] = b'"';
    escaped[256] = b'\\';
    escaped[257] = b'"';
    escaped[258] = b'"';
    let cases: [(&[u8], &[Token]); 30] = [
        (b"", &[]),
        (b" \t\r\n", &[]),
        (b" \t\r\nx", &[token(Word, 4, 5, 2, 1)]),
        (b"\t\rx", &[token(Word, 2, 3, 1, 3)]),
        (
            b"10Days",
            &[
                token(Number, 0, 2, 1, 1),
                token(Reserved(Keyword::Days), 2, 6, 1, 3),
            ],
        ),
        (
            b"x:=1",
            &[
                token(Word, 0, 1, 1, 1),
                token(ASign(Sign::Assign), 1, 3, 1, 2),
                token(Number, 3, 4, 1, 4),
            ],
        ),
        (
            b": =",
            &[
                token(ASign(Sign::Colon), 0, 1, 1, 1),
                token(ASign(Sign::Equal), 2, 3, 1, 3),
            ],
        ),
        (
            b"a->b",
            &[
                token(Word, 0, 1, 1, 1),
                token(ASign(Sign::Arrow), 1, 3, 1, 2),
                token(Word, 3, 4, 1, 4),
            ],
        ),
        (
            b"a<=b",
            &[
                token(Word, 0, 1, 1, 1),
                token(ASign(Sign::AtMost), 1, 3, 1, 2),
                token(Word, 3, 4, 1, 4),
            ],
        ),
        (
            b"a< =b",
            &[
                token(Word, 0, 1, 1, 1),
                token(ASign(Sign::Less), 1, 2, 1, 2),
                token(ASign(Sign::Equal), 3, 4, 1, 4),
                token(Word, 4, 5, 1, 5),
            ],
        ),
        (
            b"isAn isAnx endDomain",
            &[
                token(Reserved(Keyword::IsAn), 0, 4, 1, 1),
                token(Word, 5, 10, 1, 6),
                token(Reserved(Keyword::EndDomain), 11, 20, 1, 12),
            ],
        ),
        (&word, &[token(Word, 0, 64, 1, 1)]),
        (&digits, &[token(Number, 0, 18, 1, 1)]),
        (
            b"2024-03-011",
            &[token(Date, 0, 10, 1, 1), token(Number, 10, 11, 1, 11)],
        ),
        (
            b"2024-03-01T9",
            &[token(Date, 0, 10, 1, 1), token(Word, 10, 12, 1, 11)],
        ),
        (
            b"2024-03-01T0930",
            &[token(Date, 0, 13, 1, 1), token(Number, 13, 15, 1, 14)],
        ),
        (
            b"12024-03-01",
            &[
                token(Number, 0, 5, 1, 1),
                token(ASign(Sign::Minus), 5, 6, 1, 6),
                token(Number, 6, 8, 1, 7),
                token(ASign(Sign::Minus), 8, 9, 1, 9),
                token(Number, 9, 11, 1, 10),
            ],
        ),
        (b"2024-03-01T09:30", &[token(Date, 0, 16, 1, 1)]),
        (
            b"-5",
            &[
                token(ASign(Sign::Minus), 0, 1, 1, 1),
                token(Number, 1, 2, 1, 2),
            ],
        ),
        (
            b"\"a\\\"b\\\\\"x",
            &[token(Str, 0, 8, 1, 1), token(Word, 8, 9, 1, 9)],
        ),
        (b"\"\"", &[token(Str, 0, 2, 1, 1)]),
        (b"\"\0\t\r\"", &[token(Str, 0, 5, 1, 1)]),
        (&plain, &[token(Str, 0, 258, 1, 1)]),
        (&escaped, &[token(Str, 0, 259, 1, 1)]),
        (b"// \xC3\xA9\0\r \"\nx", &[token(Word, 10, 11, 2, 1)]),
        (b"x // y", &[token(Word, 0, 1, 1, 1)]),
        (b"//", &[]),
        (
            b"a//b\n//c\nd",
            &[token(Word, 0, 1, 1, 1), token(Word, 9, 10, 3, 1)],
        ),
        (
            b"a\r\n  b_1",
            &[token(Word, 0, 1, 1, 1), token(Word, 5, 8, 2, 3)],
        ),
        (b"\"//\"//\"", &[token(Str, 0, 4, 1, 1)]),
    ];
    for (source, expected) in cases {
        assert!(rt; source.len() < 1000);
        let found = tokens(rt.alloc(), FileKind::Spec, source)?;
        assert_eq!(rt; found.items(), expected);
    }
    Ok(())
}

/// Where the text is refused.
fn refused_at(alloc: Global, source: &[u8]) -> Option<Place>
    requires { length source.now < 2 ^ 32 }
{
    match tokens(alloc, FileKind::Spec, source).err()? {
        Refused::Memory => None,
        Refused::Refusal(refusal) => refusal.place,
    }
}

#[test]
fn refuses_texts_without_tokens(rt: HostRuntime) {
    let word = [b'x'; 65];
    let digits = [b'7'; 19];
    // 257 bytes of content.
    let mut plain = [b'x'; 259];
    plain[0] = b'"';
    plain[258] = b'"';
    // 257 bytes of content, of which the last is written as `\"`.
    let mut escaped = [b'x'; 260];
    escaped[0] = b'"';
    escaped[257] = b'\\';
    escaped[258] = b'"';
    escaped[259] = b'"';
    let cases: [(&[u8], u64, u64); 27] = [
        (&word, 1, 65),
        (&digits, 1, 19),
        (&plain, 1, 258),
        (&escaped, 1, 258),
        (b"\"a\\n\"", 1, 4),
        (b"\"a\nb\"", 1, 3),
        (b"x\n\"\n\"", 2, 2),
        (b"\"ab", 1, 4),
        (b"\"", 1, 2),
        (b"\"a\\", 1, 4),
        (b"\"a\\\"", 1, 5),
        (b"/x", 1, 2),
        (b"/ /", 1, 2),
        (b"/\n", 1, 2),
        (b"a/", 1, 3),
        (b"/", 1, 2),
        (b"!x", 1, 2),
        (b"!", 1, 2),
        (b"@", 1, 1),
        (b"a\n\t@", 2, 2),
        (b"\r@", 1, 2),
        (b"// a\n@", 2, 1),
        (b"a \xC3\xA9", 1, 3),
        (b"\xA9", 1, 1),
        (b"a\0", 1, 2),
        (b"_a", 1, 1),
        (b"\\", 1, 1),
    ];
    for (source, line, column) in cases {
        assert!(rt; source.len() < 1000);
        assert_eq!(rt;
            refused_at(rt.alloc(), source),
            Some(Place { line, column })
        );
    }
}

#[test]
fn knows_where_texts_end(rt: HostRuntime) {
    let cases: [(&[u8], u64, u64); 3] = [(b"", 1, 1), (b"a\n", 2, 1), (b"ab", 1, 3)];
    for (source, line, column) in cases {
        assert!(rt; source.len() < 1000);
        assert_eq!(rt; end_place(source), Place { line, column });
    }
}

#[test]
fn knows_words_and_signs(rt: HostRuntime) {
    let words: [(&[u8], Option<Keyword>); 9] = [
        (b"Asset", Some(Keyword::Asset)),
        (b"within", Some(Keyword::Within)),
        (b"contract", Some(Keyword::ThisContract)),
        (b"Contract", Some(Keyword::Contract)),
        (b"O", Some(Keyword::O)),
        (b"happensBefore", Some(Keyword::HappensBefore)),
        (b"happensB", None),
        (b"", None),
        (b"zzz", None),
    ];
    for (text, word) in words {
        assert_eq!(rt; Keyword::of(text), word);
    }
    let signs: [(&[u8], Option<Sign>); 9] = [
        (b":= 1", Some(Sign::Assign)),
        (b": =", Some(Sign::Colon)),
        (b"->", Some(Sign::Arrow)),
        (b"-", Some(Sign::Minus)),
        (b">=", Some(Sign::AtLeast)),
        (b"!=", Some(Sign::NotEqual)),
        (b"!", None),
        (b"", None),
        (b"a", None),
    ];
    for (text, sign) in signs {
        assert_eq!(rt; Sign::at(text), sign);
    }
}
