// Tokens before and after the first mark of a kind.
ghost use Rattle.std.specs.Prelude.{◌≡◌, ◌≤◌, length, drop, option_map};
ghost use Rattle.addr_grammar.specs.Grammar.{is_mark, before, after};

use addr_words::{Token, TokenKind};

/// What parts an address.
#[derive(Clone, Copy)]
pub enum Mark {
    Colon,
    Comma,
    Dual,
    Equals,
}

impl Mark {
    fn is(self, kind: TokenKind) -> bool
        ensures { result ≡ is_mark self kind }
    {
        match (self, kind) {
            (Mark::Colon, TokenKind::Colon) => true,
            (Mark::Comma, TokenKind::Comma) => true,
            (Mark::Dual, TokenKind::Dual) => true,
            (Mark::Equals, TokenKind::Equals) => true,
            _ => false,
        }
    }
}

/// The tokens before the first mark, and that mark with the tokens after it, where there is one.
#[derive(Clone, Copy)]
pub struct Cut<'a> {
    pub front: &'a [Token],
    pub back: Option<(Token, &'a [Token])>,
}

/// Cuts the tokens at the first such mark.
pub fn cut_at(tokens: &[Token], mark: Mark) -> Cut<'_>
    ensures front { result.front.now ≡ before mark tokens.now }
    ensures back { option_map (λ b. (b.0, b.1.now)) result.back ≡ after mark tokens.now }
{
    for (i, token) in tokens.iter().enumerate() {
        if mark.is(token.kind) {
            return Cut {
                front: &tokens[..i],
                back: Some((*token, &tokens[i + 1..])),
            };
        }
    }
    Cut {
        front: tokens,
        back: None,
    }
}
