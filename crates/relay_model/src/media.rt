// What a kind of address stands on.

/// What a kind stands on: a standard stream, a file or pipe, a program, a connection, or datagrams.
#[derive(Clone, Copy, PartialEq, Eq)]
pub enum Medium {
    Standard,
    Storage,
    Program,
    Connection,
    Datagrams,
}
