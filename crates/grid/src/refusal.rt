// Why a call is refused: the question that was answered no.
ghost use Rattle.std.specs.Prelude.{◌≡◌};
ghost use Rattle.grid.specs.Refusal.{refusal_number};

// In the order of the questions; Circle is of a radius or a centre, which are both question 8. The last three are a job's.
#[derive(Clone, Copy, PartialEq, Eq)]
pub enum Refusal {
    Sizes,
    Latitudes,
    Columns,
    Counts,
    SheetSizes,
    SheetOrder,
    Buffers,
    Circle,
    Share,
    Spacing,
    LedgerOrder,
    Places,
    Bytes,
    Turn,
    Index,
}

impl Refusal {
    // Its number, which a studio is told.
    pub fn number(self) -> u32
        ensures { result ≡ refusal_number self }
    {
        match self {
            Refusal::Sizes => 1,
            Refusal::Latitudes => 2,
            Refusal::Columns => 3,
            Refusal::Counts => 4,
            Refusal::SheetSizes => 5,
            Refusal::SheetOrder => 6,
            Refusal::Buffers => 7,
            Refusal::Circle => 8,
            Refusal::Share => 9,
            Refusal::Spacing => 10,
            Refusal::LedgerOrder => 11,
            Refusal::Places => 12,
            Refusal::Bytes => 13,
            Refusal::Turn => 14,
            Refusal::Index => 15,
        }
    }
}
