//! The kinds of bus records: one table, which the encoder and the decoder both read.
ghost use Rattle.std.specs.Prelude.{◌≡◌, Some};
ghost use Rattle.record.specs.Kinds.{code_of, within, rules_of};

/// What a record is. The numbers stand in its byte 0.
#[derive(Clone, Copy, PartialEq, Eq, Debug)]
pub enum RecordKind {
    /// The home of a transaction asks a preferred board for its locks.
    Prepare = 1,
    /// The preferred board's answer.
    Vote = 2,
    /// The home tells a board that voted yes that the transaction was aborted.
    Abort = 3,
    /// The home tells a board of a committed row.
    Propagate = 4,
    /// A board has the row in its log.
    Ack = 5,
    /// The home tells a board that enough boards have the row.
    Durable = 6,
    /// A row as a log keeps it; it is never sent.
    Row = 8,
}

/// The numbers from `least` to `most`, both among them.
#[derive(Clone, Copy)]
pub struct Bounds {
    pub least: u32,
    pub most: u32,
}

impl Bounds {
    const ZERO: Bounds = Bounds { least: 0, most: 0 };

    const YES_OR_NO: Bounds = Bounds { least: 0, most: 1 };

    const UPDATES: Bounds = Bounds { least: 1, most: 4 };

    const SERIALS: Bounds = Bounds {
        least: 1,
        most: u32::MAX,
    };

    const NUMBERS: Bounds = Bounds {
        least: 1,
        most: 4096,
    };

    pub(crate) fn admit(&self, n: u32) -> bool
        ensures { result ≡ within self.now n }
    {
        self.least <= n && n <= self.most
    }
}

/// What the records of a kind may hold in byte 3, as serial and as number.
/// Those that carry a row have a start clock, and byte 3 counts their updates; in the others clock and updates are zero.
#[derive(Clone, Copy)]
pub struct KindRules {
    pub kind: RecordKind,
    pub detail: Bounds,
    pub serial: Bounds,
    pub number: Bounds,
    pub carries: bool,
}

/// The seven kinds.
pub const KINDS: [KindRules; 7] = [
    KindRules {
        kind: RecordKind::Prepare,
        detail: Bounds::UPDATES,
        serial: Bounds::SERIALS,
        number: Bounds::ZERO,
        carries: true,
    },
    KindRules {
        kind: RecordKind::Vote,
        detail: Bounds::YES_OR_NO,
        serial: Bounds::SERIALS,
        number: Bounds::ZERO,
        carries: false,
    },
    KindRules {
        kind: RecordKind::Abort,
        detail: Bounds::ZERO,
        serial: Bounds::SERIALS,
        number: Bounds::ZERO,
        carries: false,
    },
    KindRules {
        kind: RecordKind::Propagate,
        detail: Bounds::UPDATES,
        serial: Bounds::SERIALS,
        number: Bounds::NUMBERS,
        carries: true,
    },
    KindRules {
        kind: RecordKind::Ack,
        detail: Bounds::ZERO,
        serial: Bounds::ZERO,
        number: Bounds::NUMBERS,
        carries: false,
    },
    KindRules {
        kind: RecordKind::Durable,
        detail: Bounds::ZERO,
        serial: Bounds::ZERO,
        number: Bounds::NUMBERS,
        carries: false,
    },
    KindRules {
        kind: RecordKind::Row,
        detail: Bounds::UPDATES,
        serial: Bounds::SERIALS,
        number: Bounds::NUMBERS,
        carries: true,
    },
];

impl RecordKind {
    /// The rules of the kind.
    pub(crate) fn rules(self) -> KindRules
        ensures { Some result ≡ rules_of (code_of «self») }
    {
        let [prepare, vote, abort, propagate, ack, durable, row] = KINDS;
        match self {
            RecordKind::Prepare => prepare,
            RecordKind::Vote => vote,
            RecordKind::Abort => abort,
            RecordKind::Propagate => propagate,
            RecordKind::Ack => ack,
            RecordKind::Durable => durable,
            RecordKind::Row => row,
        }
    }
}

impl KindRules {
    /// The rules of the kind with this number in byte 0.
    pub(crate) fn of(code: u8) -> Option<KindRules>
        ensures { result ≡ rules_of code }
    {
        KINDS.iter().find(|rules| rules.kind as u8 == code).copied()
    }
}
