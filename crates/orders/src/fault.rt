// The faults of a command line, and the refusals by which they are told.
ghost use Rattle.std.specs.Prelude.{◌≡◌};
ghost use Rattle.orders.specs.declared.fault.OrderFault.TheVariants.{Reader};
ghost use Rattle.orders.specs.Faults.{refusal_of};

/// Why a line is refused before its tokens are read. (docs/RULES.md, "Refusals")
#[derive(Clone, Copy, Debug, PartialEq, Eq)]
pub enum ReaderFault {
    /// The line is empty or has more than 80 bytes: its length. Refusal 4.
    Length(usize),
    /// A byte that is neither of a token nor a space: the place, counted from 0, of the first. Refusal 5.
    Byte(usize),
}

/// Why a line gives no order. Of several faults the one with the lowest refusal number is given.
/// (docs/RULES.md, "Refusals")
#[derive(Clone, Copy, Debug, PartialEq, Eq)]
pub enum OrderFault {
    /// The line has a wrong length or a wrong byte. Refusal 4 or 5.
    Reader(ReaderFault),
    /// A token that no line has after the tokens before it: its place, counted from 0, or the length of the line if it
    /// stops too early. Refusal 6.
    Token(usize),
    /// A cycle outside 4 to 120 seconds: the place, counted from 0, of its digits. Refusal 7.
    Cycle(usize),
}

impl From<ReaderFault> for OrderFault {
    ghost from_gives = { λ f r. r ≡ Reader f };

    fn from(fault: ReaderFault) -> OrderFault {
        OrderFault::Reader(fault)
    }
}

/// The refusal of a command line or of a breaker reset, in the numbers of the rule book. (docs/RULES.md, "Refusals")
#[derive(Clone, Copy, Debug, PartialEq, Eq)]
pub struct Refusal {
    /// Number of the refusal, 4 to 11.
    pub number: u32,
    /// The length of the line, a place in it, or the bytes needed, by the number; none for 8 to 10.
    pub value: Option<usize>,
}

impl OrderFault {
    /// Refusal 4 to 7, always with a value: the length or the place of the fault.
    pub fn refusal(self) -> Refusal
        ensures { result ≡ refusal_of self }
    {
        let (number, value) = match self {
            OrderFault::Reader(ReaderFault::Length(length)) => (4, length),
            OrderFault::Reader(ReaderFault::Byte(place)) => (5, place),
            OrderFault::Token(place) => (6, place),
            OrderFault::Cycle(place) => (7, place),
        };
        Refusal {
            number,
            value: Some(value),
        }
    }
}
