//! The tokens of texts, with their places, and the first fault of each text that is refused.
use ll_lexer::{Fault, Place, TextFault, TokenKind, tokens};
use std::test::Fail;

// Every kind of token, the spellings that lie close together, CR, tabs, and bytes 0 and 255 in a comment.
const TEXT: &[u8] =
    b"MODULE m X_1.\r\n\tLOCAL LOCALS LINEAR\n% \x00\xff :- \"\nforall x\\ exists _(_x)&{a-1}; true,erase truer-ob --> -007::__\n:- <= => % the end";

const TOKENS: [(TokenKind, u32, u32, &[u8]); 34] = [
    (TokenKind::Module, 1, 1, b"MODULE"),
    (TokenKind::Name, 1, 8, b"m"),
    (TokenKind::Variable, 1, 10, b"X_1"),
    (TokenKind::Dot, 1, 13, b"."),
    (TokenKind::Local, 2, 2, b"LOCAL"),
    (TokenKind::Variable, 2, 8, b"LOCALS"),
    (TokenKind::Linear, 2, 15, b"LINEAR"),
    (TokenKind::Forall, 4, 1, b"forall"),
    (TokenKind::Name, 4, 8, b"x"),
    (TokenKind::Backslash, 4, 9, b"\\"),
    (TokenKind::Exists, 4, 11, b"exists"),
    (TokenKind::Any, 4, 18, b"_"),
    (TokenKind::ParenLeft, 4, 19, b"("),
    (TokenKind::Variable, 4, 20, b"_x"),
    (TokenKind::ParenRight, 4, 22, b")"),
    (TokenKind::Ampersand, 4, 23, b"&"),
    (TokenKind::BraceLeft, 4, 24, b"{"),
    (TokenKind::Name, 4, 25, b"a"),
    (TokenKind::Number, 4, 26, b"-1"),
    (TokenKind::BraceRight, 4, 28, b"}"),
    (TokenKind::Semicolon, 4, 29, b";"),
    (TokenKind::True, 4, 31, b"true"),
    (TokenKind::Comma, 4, 35, b","),
    (TokenKind::Erase, 4, 36, b"erase"),
    (TokenKind::Name, 4, 42, b"truer"),
    (TokenKind::Lolli, 4, 47, b"-o"),
    (TokenKind::Name, 4, 49, b"b"),
    (TokenKind::LoadArrow, 4, 51, b"-->"),
    (TokenKind::Number, 4, 55, b"-007"),
    (TokenKind::Cons, 4, 59, b"::"),
    (TokenKind::Variable, 4, 61, b"__"),
    (TokenKind::ColonDash, 5, 1, b":-"),
    (TokenKind::LeftArrow, 5, 4, b"<="),
    (TokenKind::RightArrow, 5, 7, b"=>"),
];

// The word and the signs of whole-number goals, beside what is spelled nearly so.
const NUMBERS: &[u8] = b"is isa =<<<=<- -1-- -o--> +*=>";

const NUMBER_TOKENS: [(TokenKind, u32, &[u8]); 15] = [
    (TokenKind::Is, 1, b"is"),
    (TokenKind::Name, 4, b"isa"),
    (TokenKind::Most, 8, b"=<"),
    (TokenKind::Less, 10, b"<"),
    (TokenKind::LeftArrow, 11, b"<="),
    (TokenKind::Less, 13, b"<"),
    (TokenKind::Minus, 14, b"-"),
    (TokenKind::Number, 16, b"-1"),
    (TokenKind::Minus, 18, b"-"),
    (TokenKind::Minus, 19, b"-"),
    (TokenKind::Lolli, 21, b"-o"),
    (TokenKind::LoadArrow, 23, b"-->"),
    (TokenKind::Plus, 27, b"+"),
    (TokenKind::Star, 28, b"*"),
    (TokenKind::RightArrow, 29, b"=>"),
];

#[test]
fn reads_numbers(rt: HostRuntime) -> Result<(), Fail> {
    let list = tokens(rt.alloc(), NUMBERS)?;
    assert_eq!(rt; list.len(), NUMBER_TOKENS.len());
    for i in 0..list.len() {
        let (kind, column, bytes) = NUMBER_TOKENS[i];
        let token = list.get(i);
        assert!(rt; token.kind == kind, "at {i}");
        assert_eq!(rt; token.at, Place { line: 1, column }, "at {i}");
        assert_eq!(rt; list.bytes(i), bytes, "at {i}");
    }
    Ok(())
}

#[test]
fn reads(rt: HostRuntime) -> Result<(), Fail> {
    let list = tokens(rt.alloc(), TEXT)?;
    assert_eq!(rt; list.len(), TOKENS.len());
    for i in 0..list.len() {
        let (kind, line, column, bytes) = TOKENS[i];
        let token = list.get(i);
        assert!(rt; token.kind == kind, "at {i}");
        assert_eq!(rt; token.at, Place { line, column }, "at {i}");
        assert_eq!(rt; list.bytes(i), bytes, "at {i}");
    }
    assert_eq!(rt;
        list.end(),
        Place {
            line: 5,
            column: 19
        }
    );
    Ok(())
}

// Texts with a fault, its line, column and kind: the first one wins.
const FAULTS: [(&[u8], u32, u32, u8); 13] = [
    (b"p \"a\".", 1, 3, 1),
    (b"p 9223372036854775808.", 1, 3, 2),
    (b"a\n\tb -9223372036854775809", 2, 4, 2),
    (b"a - 99999999999999999999", 1, 5, 2),
    (b"00099999999999999999999 -", 1, 1, 2),
    (b"a -- \xff", 1, 6, 1),
    (b"a -> b", 1, 4, 1),
    (b"a : b", 1, 3, 1),
    (b"a =- b", 1, 3, 1),
    (b"p :- X is = 1.", 1, 11, 1),
    (b"a == b", 1, 3, 1),
    (b"a.\x00", 1, 3, 1),
    (b"a % b\n \xff", 2, 2, 1),
];

#[test]
fn faults(rt: HostRuntime) {
    for (text, line, column, kind) in FAULTS {
        let fault = Fault {
            at: Place { line, column },
            kind,
        };
        match tokens(rt.alloc(), text) {
            Err(e) => assert_eq!(rt; e, TextFault::Text(fault)),
            Ok(_) => panic!(rt; "no fault"),
        }
    }
}

// Numbers at the ends of 64 bits and of a million digits, and names of 255 and of 256 bytes.
#[test]
fn limits(rt: HostRuntime) -> Result<(), Fail> {
    let list = tokens(
        rt.alloc(),
        b"9223372036854775807 -9223372036854775808 -0 0042",
    )?;
    let want = [9223372036854775807, -9223372036854775808, 0, 42];
    assert_eq!(rt; list.len(), want.len());
    for i in 0..list.len() {
        assert!(rt; list.get(i).kind == TokenKind::Number);
        assert_eq!(rt; list.number(i), want[i]);
    }

    let at = Place { line: 1, column: 1 };
    let name = vec![in rt.alloc(); b'a'; 256]?;
    assert!(rt; tokens(rt.alloc(), &name[..255]).is_ok());
    assert_eq!(rt;
        tokens(rt.alloc(), &name).err(),
        Some(TextFault::Text(Fault { at, kind: 3 }))
    );

    let zeros = vec![in rt.alloc(); b'0'; 1000000]?;
    assert!(rt; tokens(rt.alloc(), &zeros).is_ok());
    let nines = vec![in rt.alloc(); b'9'; 1000000]?;
    assert_eq!(rt;
        tokens(rt.alloc(), &nines).err(),
        Some(TextFault::Text(Fault { at, kind: 2 }))
    );
    Ok(())
}
