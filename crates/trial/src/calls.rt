// The calls that can be asked, and what each takes.

#[derive(Clone, Copy)]
pub(crate) enum Call {
    Compare,
    TabulateBoth,
    Tabulate,
    Write,
    Clock,
    FaultOf,
    Levelize,
    LengthOf,
    Read,
    MapAlike,
    MapAlignable,
    TraceOf,
    ListOf,
    Judge,
    EarlierNumber,
}

impl Call {
    // The call of a name.
    pub(crate) fn named(name: &[u8]) -> Option<Call> {
        match name {
            b"compare" => Some(Call::Compare),
            b"tabulate_both" => Some(Call::TabulateBoth),
            b"tabulate" => Some(Call::Tabulate),
            b"write" => Some(Call::Write),
            b"clock" => Some(Call::Clock),
            b"fault_of" => Some(Call::FaultOf),
            b"levelize" => Some(Call::Levelize),
            b"length_of" => Some(Call::LengthOf),
            b"read" => Some(Call::Read),
            b"map_alike" => Some(Call::MapAlike),
            b"map_alignable" => Some(Call::MapAlignable),
            b"trace_of" => Some(Call::TraceOf),
            b"list_of" => Some(Call::ListOf),
            b"judge" => Some(Call::Judge),
            b"earlier_number" => Some(Call::EarlierNumber),
            _ => None,
        }
    }

    // Whether it takes a design, the old one if it takes two.
    pub(crate) fn takes_old(self) -> bool {
        match self {
            Call::Tabulate | Call::Write | Call::Clock | Call::FaultOf | Call::Levelize => true,
            _ => self.takes_new(),
        }
    }

    // Whether it takes two designs.
    pub(crate) fn takes_new(self) -> bool {
        matches!(self, Call::Compare | Call::TabulateBoth)
    }

    // Whether it takes so many numbers and so many bytes.
    pub(crate) fn takes(self, numbers: usize, bytes: usize) -> bool {
        match self {
            Call::FaultOf | Call::Levelize => numbers == 0 && bytes == 0,
            Call::LengthOf | Call::Read => numbers == 0,
            Call::EarlierNumber => bytes == 0,
            _ => bytes == 0 || !self.takes_old(),
        }
    }
}
