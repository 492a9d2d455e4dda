// Why a text or a call is refused.
ghost use Rattle.std.specs.Prelude.{◌≡◌};
ghost use Rattle.numbers.specs.Refusals.{number_of, Numbers};

use std::error::Error;
use std::fmt;

// The reasons, each with its number.
#[derive(Clone, Copy, Debug, PartialEq, Eq, Hash)]
pub enum Refusal {
    // A text over 16,384 bytes.
    TextLength = 1,
    // A text whose last byte is not zero.
    TextEnd = 2,
    // A byte above 127.
    Byte = 3,
    // An argument that does not start with two dashes.
    Argument = 4,
    // A key without its value.
    ValueLacking = 5,
    // A mode that is neither udp nor tcp.
    Mode = 6,
    // A whole number that is malformed.
    Whole = 7,
    // A whole number above 2^53.
    WholeAbove = 8,
    // A zero where none may be.
    Zero = 9,
    // A decimal that is malformed.
    Decimal = 10,
    // A probability above 1.
    Probability = 11,
    // A burst loss that has not three parts.
    GeParts = 12,
    // A burst loss whose p or r is zero.
    GeZero = 13,
    // Reordering without a delay.
    Reorder = 14,
    // A window without a colon.
    Colon = 15,
    // A window that ends where it starts or before.
    Window = 16,
    // A kill that has not three parts.
    KillParts = 17,
    // A kill whose style is neither rst nor hold.
    KillStyle = 18,
    // More than 128 windows or kills of a direction.
    Entries = 19,
    // A kill under udp.
    KillUnderUdp = 20,
    // An instant that is NaN, has its sign bit set or is above 2^53.
    Instant = 21,
    // A packet longer than a slot, or, where there are no slots, than any slot may be.
    Length = 22,
    // Lent memory that is too short.
    Memory = 23,
    // A capacity that is out of range.
    Capacity = 24,
    // A counter that is 2^60 or more.
    Counter = 25,
    // State or lent memory that was altered between calls.
    Keeping = 26,
    // A due that is NaN.
    Due = 27,
    // A queue that is full.
    Full = 28,
    // Settings of which one is out of its range.
    Settings = 29,
    // A slot width that is out of range.
    Width = 30,
    // A change of address under tcp.
    NatChangeUnderTcp = 31,
    // Reordering under tcp.
    ReorderUnderTcp = 32,
    // Duplicates under tcp.
    DuplicateUnderTcp = 33,
}

// A number that stands for no refusal.
#[derive(Clone, Copy, Debug, PartialEq, Eq, Hash)]
pub struct UnknownRefusal(pub u32);

// The number that stands for the reason.
impl From<Refusal> for u32 {
    ghost from_gives = { λ refusal number. number ≡ number_of refusal };

    fn from(refusal: Refusal) -> u32 {
        refusal as u32
    }
}

impl TryFrom<u32> for Refusal {
    type Error = UnknownRefusal;

    ghost try_from_gives = { Numbers };

    fn try_from(number: u32) -> Result<Self, UnknownRefusal> {
        match number {
            1 => Ok(Refusal::TextLength),
            2 => Ok(Refusal::TextEnd),
            3 => Ok(Refusal::Byte),
            4 => Ok(Refusal::Argument),
            5 => Ok(Refusal::ValueLacking),
            6 => Ok(Refusal::Mode),
            7 => Ok(Refusal::Whole),
            8 => Ok(Refusal::WholeAbove),
            9 => Ok(Refusal::Zero),
            10 => Ok(Refusal::Decimal),
            11 => Ok(Refusal::Probability),
            12 => Ok(Refusal::GeParts),
            13 => Ok(Refusal::GeZero),
            14 => Ok(Refusal::Reorder),
            15 => Ok(Refusal::Colon),
            16 => Ok(Refusal::Window),
            17 => Ok(Refusal::KillParts),
            18 => Ok(Refusal::KillStyle),
            19 => Ok(Refusal::Entries),
            20 => Ok(Refusal::KillUnderUdp),
            21 => Ok(Refusal::Instant),
            22 => Ok(Refusal::Length),
            23 => Ok(Refusal::Memory),
            24 => Ok(Refusal::Capacity),
            25 => Ok(Refusal::Counter),
            26 => Ok(Refusal::Keeping),
            27 => Ok(Refusal::Due),
            28 => Ok(Refusal::Full),
            29 => Ok(Refusal::Settings),
            30 => Ok(Refusal::Width),
            31 => Ok(Refusal::NatChangeUnderTcp),
            32 => Ok(Refusal::ReorderUnderTcp),
            33 => Ok(Refusal::DuplicateUnderTcp),
            _ => Err(UnknownRefusal(number)),
        }
    }
}

impl fmt::Display for Refusal {
    fn fmt<W: fmt::Write>(&self, f: &mut fmt::Formatter<W>) -> fmt::Result {
        f.write_str(match self {
            Refusal::TextLength => "the option text has more than 16,384 bytes",
            Refusal::TextEnd => "the option text does not end with a zero byte",
            Refusal::Byte => "the option text has a byte above 127",
            Refusal::Argument => "an argument does not start with --",
            Refusal::ValueLacking => "the last argument is a key without its value",
            Refusal::Mode => "the mode is neither udp nor tcp",
            Refusal::Whole => "a whole number is not digits, or is 2^64 or more",
            Refusal::WholeAbove => "a whole number is above 9007199254740992",
            Refusal::Zero => "queue-cap, rate-bps, mtu or nat-change-every-ms is 0",
            Refusal::Decimal =>
                "a decimal is not 1 to 15 digits with at most one point; an empty value, NaN, an exponent or a minus sign is not taken",
            Refusal::Probability => "a probability is above 1",
            Refusal::GeParts => "ge has not three parts, P:R:H",
            Refusal::GeZero => "P or R of ge is 0",
            Refusal::Reorder => "reorder is above 0 and reorder-delay-ms is 0",
            Refusal::Colon => "a blackout has no colon between start and end",
            Refusal::Window => "a blackout or kill does not end after its start",
            Refusal::KillParts => "a kill has not three parts, START:END:STYLE",
            Refusal::KillStyle => "the style of a kill is neither rst nor hold",
            Refusal::Entries => "a direction has more than 128 blackouts, or more than 128 kills",
            Refusal::KillUnderUdp => "a kill under udp; it is an option of tcp alone",
            Refusal::Instant =>
                "an instant is not a number, has a minus sign or is above 9007199254740992 ms",
            Refusal::Length => "a packet has more bytes than a slot, or more than 9,216",
            Refusal::Memory => "the lent memory is too short for the capacity and the slot width",
            Refusal::Capacity => "the capacity is 0 or above 1,048,576",
            Refusal::Counter => "a counter that was handed in is 2^60 or more",
            Refusal::Keeping => "the device or its memory was changed between two calls",
            Refusal::Due => "a due is not a number",
            Refusal::Full => "the queue is full",
            Refusal::Settings => "the settings that were handed in are out of range",
            Refusal::Width => "the slot width is below 64 or above 9,216",
            Refusal::NatChangeUnderTcp =>
                "nat-change-every-ms under tcp; it is an option of udp alone",
            Refusal::ReorderUnderTcp =>
                "reorder is above 0 under tcp; it is an option of udp alone",
            Refusal::DuplicateUnderTcp =>
                "duplicate is above 0 under tcp; it is an option of udp alone",
        })
    }
}

impl fmt::Display for UnknownRefusal {
    fn fmt<W: fmt::Write>(&self, f: &mut fmt::Formatter<W>) -> fmt::Result {
        write!(f, "no refusal has the number {}", self.0)
    }
}

impl Error for Refusal {}

impl Error for UnknownRefusal {}
