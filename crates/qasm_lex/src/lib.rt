//! The tokens of an OpenQASM text, and the lines and columns of its places.
//!
//! White space is space, tab, CR and LF. A comment runs from `//` to the end of its line and may
//! hold any bytes. Neither makes a token. Everywhere else stands a token, the longest that any
//! kind spells there:
//!
//! - a word: a letter, then letters, digits and `_`;
//! - a number: digits; or digits, `.`, any digits; or `.`, digits; then optionally `e` or `E`, an
//!   optional sign, digits;
//! - a text: `"`, any bytes but `"` and LF, `"`;
//! - a sign: `;` `,` `(` `)` `[` `]` `{` `}` `+` `-` `*` `/` `^` `->` `==`.
#![tactic(auto)]

mod cutting;
mod places;
mod runs;
mod types;

pub use cutting::tokens;
pub use places::place;
pub use types::{Kind, LexFault, Token};

#[cfg(test)]
mod tests {
    use super::*;
    use std::test::Fail;

    #[test]
    fn cuts_a_statement(rt: HostRuntime) -> Result<(), Fail> {
        let cut = tokens(rt.alloc(), b"h q[0];")?;
        let want = [
            (Kind::Word, 0, 1),
            (Kind::Word, 2, 3),
            (Kind::Sign, 3, 4),
            (Kind::Number, 4, 5),
            (Kind::Sign, 5, 6),
            (Kind::Sign, 6, 7),
        ];
        assert_eq!(rt; cut.len(), want.len());
        for (token, (kind, from, to)) in cut.iter().zip(want.iter()) {
            assert_eq!(rt;
                *token,
                Token {
                    kind: *kind,
                    from: *from,
                    to: *to
                }
            );
        }
        Ok(())
    }

    #[test]
    fn tells_the_first_fault(rt: HostRuntime) {
        let faults = [
            (b"a = b".as_slice(), LexFault::BadByte(2)),
            (b"3q".as_slice(), LexFault::BadNumber(0)),
            (b"\"x".as_slice(), LexFault::OpenString(0)),
        ];
        for (text, fault) in faults {
            assert_eq!(rt; tokens(rt.alloc(), text).err(), Some(fault));
        }
    }

    #[test]
    fn finds_places(rt: HostRuntime) {
        let text = b"OPENQASM 2.0;\nqreg q[1];\n";
        for (offset, line, column) in [(0, 1, 1), (13, 1, 14), (14, 2, 1), (19, 2, 6), (25, 3, 1)] {
            assert_eq!(rt; place(text, offset), (line, column));
        }
    }
}
