// Why a call refuses: the lines of the published list, by their numbers.
ghost use Rattle.std.specs.Prelude.{◌≡◌, ◌||◌, eqb};
ghost use Rattle.buffers.specs.internal.Numbers.{number_of, refusal_number};

#[derive(Clone, Copy, PartialEq, Eq)]
pub enum Refusal {
    Form = 1,
    Count = 2,
    Large = 3,
    Length = 4,
    Stray = 5,
    Value = 6,
    Graph = 7,
    Qubit = 8,
    Anticommute = 9,
    Dependent = 10,
    ImageC = 11,
    ImageY = 12,
    Inequivalent = 13,
    Contradicted = 14,
    Steps = 15,
    Used = 16,
    NotHeld = 17,
    Full = 18,
    OtherGroup = 19,
    NotUsed = 20,
}

impl Refusal {
    // The number in the published list.
    pub fn number(self) -> u8
        ensures { result ≡ refusal_number self }
    {
        self as u8
    }
}

// What a call answers to C: 0 where it accepts, else the number of the refusal.
pub fn number_of(answer: Result<(), Refusal>) -> u8
    ensures { result ≡ number_of answer }
{
    match answer {
        Ok(()) => 0,
        Err(refusal) => refusal.number(),
    }
}

// Whether a call refuses by a count or a length, whose lines come before those that look into the buffers.
pub fn refuses_shape(answer: Result<(), Refusal>) -> bool
    ensures { result ≡ (eqb (number_of answer) 2 || eqb (number_of answer) 4) }
{
    matches!(answer, Err(Refusal::Count | Refusal::Length))
}
