//! Why a command refuses what it loaded, and the code that tells it.
ghost use Rattle.std.specs.Prelude.{◌≡◌};
ghost use Rattle.tool_answers.specs.Lines.{spelling};

/// What is refused.
#[derive(Clone, Copy)]
pub enum Code {
    NotUtf8,
    BadChar,
    BadNumber,
    LongName,
    Unexpected,
    TooDeep,
    TooMany,
    BadName,
    Twice,
    BadWidth,
    BadCount,
    OwnLife,
    NoSuchLife,
    Unknown,
    TooManyPorts,
    LiteralTooLarge,
    WidthDiffers,
    UnitUsed,
    WrongSide,
    EndpointShared,
    RegisterShared,
    NotTail,
    V2,
    V3,
    V4,
    V5,
    V6,
    V7,
    V8,
    NoProcess,
    NotEmitted,
    NoModule,
    OtherPorts,
    BadStim,
    TooManyRows,
}

/// Why a command gives no output, and where: places are byte offsets, lines are counted from 1.
#[derive(Clone, Copy)]
pub enum Refusal {
    /// It has no place.
    Bare { code: Code },
    /// At one place.
    Placed { code: Code, at: u32 },
    /// At two places.
    Paired { code: Code, at: u32, other: u32 },
    /// At a line.
    Lined { code: Code, line: u32 },
    /// No refusal by itself: no memory was found.
    NoMemory,
}

/// The code as the line has it.
pub fn spelling(code: Code) -> &'static [u8]
    ensures { result.now ≡ spelling code }
{
    match code {
        Code::NotUtf8 => b"NotUtf8",
        Code::BadChar => b"BadChar",
        Code::BadNumber => b"BadNumber",
        Code::LongName => b"LongName",
        Code::Unexpected => b"Unexpected",
        Code::TooDeep => b"TooDeep",
        Code::TooMany => b"TooMany",
        Code::BadName => b"BadName",
        Code::Twice => b"Twice",
        Code::BadWidth => b"BadWidth",
        Code::BadCount => b"BadCount",
        Code::OwnLife => b"OwnLife",
        Code::NoSuchLife => b"NoSuchLife",
        Code::Unknown => b"Unknown",
        Code::TooManyPorts => b"TooManyPorts",
        Code::LiteralTooLarge => b"LiteralTooLarge",
        Code::WidthDiffers => b"WidthDiffers",
        Code::UnitUsed => b"UnitUsed",
        Code::WrongSide => b"WrongSide",
        Code::EndpointShared => b"EndpointShared",
        Code::RegisterShared => b"RegisterShared",
        Code::NotTail => b"NotTail",
        Code::V2 => b"V2",
        Code::V3 => b"V3",
        Code::V4 => b"V4",
        Code::V5 => b"V5",
        Code::V6 => b"V6",
        Code::V7 => b"V7",
        Code::V8 => b"V8",
        Code::NoProcess => b"NoProcess",
        Code::NotEmitted => b"NotEmitted",
        Code::NoModule => b"NoModule",
        Code::OtherPorts => b"OtherPorts",
        Code::BadStim => b"BadStim",
        Code::TooManyRows => b"TooManyRows",
    }
}
