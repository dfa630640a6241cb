//! The bytes of signs, and where no space stands beside them, for the writer: specs/Layout.antt, as
//! functions of the code. The lexer tells signs apart by itself.

ghost use Rattle.std.specs.Prelude.{◌≡◌};
ghost use Rattle.model_tokens.specs.Tokens.{mark, further};
ghost use Rattle.model_tokens.specs.Signs.{sign_bytes, further_bytes};
ghost use Rattle.model_text.specs.Layout.{closes_up, holds_on};

use model_tokens::{Further, Sign};

/// The bytes of a sign.
pub(crate) fn sign_bytes(sign: Sign) -> &'static [u8]
    ensures { result.now ≡ sign_bytes sign }
{
    match sign {
        Sign::Semicolon => b";",
        Sign::Colon => b":",
        Sign::Comma => b",",
        Sign::OpenParenthesis => b"(",
        Sign::CloseParenthesis => b")",
        Sign::OpenBrace => b"{",
        Sign::CloseBrace => b"}",
        Sign::Equal => b"=",
        Sign::NotEqual => b"!=",
        Sign::Below => b"<",
        Sign::AtMost => b"<=",
        Sign::Above => b">",
        Sign::AtLeast => b">=",
        Sign::Dots => b"..",
    }
}

/// The bytes of a token that only version 2 has.
pub(crate) fn further_bytes(sign: Further) -> &'static [u8]
    ensures { result.now ≡ further_bytes sign }
{
    match sign {
        Further::Entity => b"entity",
        Further::Attr => b"attr",
        Further::All => b"all",
        Further::Some => b"some",
        Further::OpenArgument => b"(",
    }
}

/// Whether no space stands behind such a token.
pub(crate) fn further_holds_on(sign: Further) -> bool
    ensures { result ≡ holds_on (further sign) }
{
    matches!(sign, Further::OpenArgument)
}

/// Whether no space stands before a sign.
pub(crate) fn closes_up(sign: Sign) -> bool
    ensures { result ≡ closes_up (mark sign) }
{
    matches!(
        sign,
        Sign::Semicolon
            | Sign::Colon
            | Sign::Comma
            | Sign::CloseParenthesis
            | Sign::CloseBrace
            | Sign::Dots
    )
}

/// Whether no space stands behind a sign.
pub(crate) fn holds_on(sign: Sign) -> bool
    ensures { result ≡ holds_on (mark sign) }
{
    matches!(sign, Sign::OpenParenthesis | Sign::OpenBrace | Sign::Dots)
}
