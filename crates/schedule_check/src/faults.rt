// What can be said of an order.
ghost use Rattle.std.specs.Prelude.{◌≡◌};
ghost use Rattle.schedule_check.specs.Faults.{number_of};

/// The kinds of faults of an order, in the order in which they are looked for.
#[derive(Clone, Copy, Debug, PartialEq, Eq)]
pub enum OrderKind {
    /// A position holds no event of the log. It is the first such position.
    Unknown,
    /// A position holds an event that an earlier one holds too. It is the first such position.
    Twice,
    /// No position holds an event of the log. It is the first such event, by thread and number, and `i` its number among them.
    Missing,
    /// An event stands after one of its thread with a greater number. It is the first such event, at position `j`; `i` is the
    /// nearest earlier position of its thread.
    ThreadOrder,
    /// The source of an entry does not stand before the entry's first step. It is entry `i`, the first such one.
    ReadBeforeWrite,
    /// Of two entries of one word with different sources, the last step of each stands after the source of the other. They are
    /// the entries `i` and `j`, the first two such ones.
    Between,
    /// The last step of an entry stands after its word's last tag, which is not the entry's source. `i` is the first word with
    /// such an entry, and `j` its first such entry.
    Final,
}

impl OrderKind {
    /// The kind's number, from 1 for `Unknown` to 7 for `Final`.
    pub fn number(self) -> u8
        ensures { result ≡ number_of self }
    {
        self as u8 + 1
    }
}

/// A fault of an order. Positions, entries and words are numbered from 0, entries thread after thread. A number of which
/// its kind does not speak is 0.
#[derive(Clone, Copy, Debug, PartialEq, Eq)]
pub struct OrderFault {
    pub kind: OrderKind,
    pub i: u32,
    pub j: u32,
}

/// What is said of an order.
#[derive(Clone, Copy, Debug, PartialEq, Eq)]
pub enum Verdict {
    /// It respects the log.
    Respects,
    /// It does not, and this is its first fault.
    Fault(OrderFault),
}
