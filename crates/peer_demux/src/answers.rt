// What a table of peers answers.

/// What becomes one row: all packets of a sender, or each packet by itself.
#[derive(Clone, Copy, PartialEq)]
pub enum Mode {
    ByPeer,
    ByPacket,
}

/// Why a packet was dropped.
#[derive(Clone, Copy, PartialEq)]
pub enum Lost {
    /// The row of its sender holds 64 packets, or its bytes and these exceed 65,536.
    RowFull { row: u32 },
    /// 4,096 rows are live.
    Rows,
    /// As many rows were made as there are numbers.
    Numbers,
    Memory,
}

/// What became of a packet.
#[derive(Clone, Copy, PartialEq)]
pub enum Put {
    /// It is the first one of a new row.
    New { row: u32 },
    /// It stands behind those of its sender.
    Queued { row: u32 },
    Dropped { why: Lost },
}

/// What a row gave: bytes of its first packet, an empty packet, nothing for now, or the end behind its only packet.
#[derive(Clone, Copy, PartialEq)]
pub enum Taken {
    Bytes(usize),
    Empty,
    NotYet,
    End,
}
