// Why a call is refused. One enum for all calls, so that each number stands in one definition.
#![tactic(auto)]

ghost use Rattle.std.specs.Prelude.{◌≡◌};
ghost use Rattle.refusal.specs.Numbers.{number_of};

// Why a call is refused; a field of an image is told apart by its section.
#[derive(Clone, Copy)]
pub enum Refusal {
    InputEnds,
    CountOverLimit,
    TaskField,
    ProcessField,
    ConstantField,
    CellField,
    BytesLeftOver,
    WindowPastMemory,
    ProcessesClash,
    ShortBuffer,
    UnsoundState,
    ListTooLong,
    ItemOutOfRange,
    InputTooLong,
    BadJobs,
    NoTries,
}

// Document 01's number of a refusal. No `From`: `u8::from(e)` would not say which number it is, and be no shorter. No numbers at the variants:
// an edit gives two of them one number, and no enum can have that.
#[tactic(auto, unfolding(crate::specs::Numbers::number_of))]
pub fn number(e: Refusal) -> u8
    ensures { result ≡ number_of e }
{
    match e {
        Refusal::InputEnds => 1,
        Refusal::CountOverLimit => 2,
        Refusal::TaskField => 3,
        Refusal::ProcessField => 12,
        Refusal::ConstantField => 14,
        Refusal::CellField => 13,
        Refusal::BytesLeftOver => 4,
        Refusal::WindowPastMemory => 5,
        Refusal::ProcessesClash => 6,
        Refusal::ShortBuffer => 7,
        Refusal::UnsoundState => 8,
        Refusal::ListTooLong => 9,
        Refusal::ItemOutOfRange => 10,
        Refusal::InputTooLong => 11,
        Refusal::BadJobs => 17,
        Refusal::NoTries => 18,
    }
}
