// Tokens and the list of them that a text has.
ghost use Rattle.std.specs.Prelude.{◌≡◌, ◌<◌, length, slice_get, Some};

use std::marker::Model;

/// What a token is. A `Byte` stands for itself; the others are marks outside of quotes and brackets.
#[derive(Clone, Copy)]
pub enum TokenKind {
    Byte(u8),
    Colon,
    Comma,
    /// Two exclamation marks, which part the two halves of an address.
    Dual,
    Equals,
}

/// A token and its spelling: the bytes of the text from `from` to before `to`, counted from 0.
#[derive(Clone, Copy)]
pub struct Token {
    pub kind: TokenKind,
    pub from: u32,
    pub to: u32,
}

/// The tokens of a text, in its order.
#[derive(Drop)]
pub struct Words {
    tokens: Vec<Token>,
}

impl Model for Words {
    ghost use Rattle.std.specs.Prelude.{List};
    ghost use Rattle.addr_words.specs.declared.token_list.Token.{Token};

    ghost Value = { List Token };

    ghost view = { λ words. words.tokens.items };
}

impl Words {
    pub(crate) fn of(tokens: Vec<Token>) -> Words
        ensures { result ≡ tokens.items }
    {
        Words { tokens }
    }

    /// The number of tokens.
    pub fn len(&self) -> usize
        ensures { result ≡ length self.now }
    {
        self.tokens.len()
    }

    /// The token at `i`, counted from 0.
    pub fn get(&self, i: usize) -> Token
        requires { i < length self.now }
        ensures { slice_get self.now i ≡ Some result }
    {
        self.tokens[i]
    }

    /// The tokens.
    pub fn as_slice(&self) -> &[Token]
        ensures { result.now ≡ self.now }
    {
        self.tokens.as_slice()
    }
}
