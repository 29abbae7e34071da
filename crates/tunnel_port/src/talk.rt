// What is said at the front of a port, and what is heard.
ghost use Rattle.std.specs.Prelude.{◌≡◌, ◌<◌, ◌++◌, ◌∷◌, [], ℕ, List, length};
ghost use Rattle.tunnel_port.specs.declared.talk.HeardReply.{HeardReply};
ghost use Rattle.tunnel_port.specs.declared.talk.HeardReply.TheVariants as hearing;

/// What a reply says by the bytes that were heard of it.
#[derive(Clone, Copy, PartialEq)]
pub enum HeardReply {
    /// It goes on.
    More,
    /// It is whole, and grants the request.
    Granted,
    /// It is whole or too long, and doesn't grant the request.
    Refused,
}

/// A request, and how its reply is read: a byte at a time, and nothing behind its end.
pub trait Talk: Drop {
    // the bytes of the request
    ghost asks: { Self → List ℕ };
    // the bytes of the reply that were heard
    ghost heard: { Self → List ℕ };
    // a reply has at most so many bytes
    ghost limit: { ℕ };
    // what the bytes that were heard say
    ghost judges: { Self → HeardReply → Type 0 };

    /// The bytes of the request.
    fn request(&self) -> &[u8]
        ensures { result.now ≡ asks self.now };

    /// Hears one more byte.
    fn hear(&mut self, byte: u8) -> HeardReply
        requires { length (heard self.old) < limit }
        ensures asks { asks self.new ≡ asks self.old }
        ensures heard { heard self.new ≡ heard self.old ++ byte ∷ [] }
        ensures judged { judges self.new result }
        ensures more { result ≡ hearing.More → length (heard self.new) < limit };
}
