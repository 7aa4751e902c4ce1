// The reasons for which a call of the container refuses, one for each of its numbers in document 01's table and 54 of
// document 02; 72 is the hash's alone.
ghost use Rattle.std.specs.Prelude.{◌≡◌};
ghost use Rattle.sfc.specs.answer.Numbers.{number_of, reason_of};

#[derive(Clone, Copy, PartialEq, Eq, Debug)]
pub enum Reason {
    HeaderShort,
    HeaderMagic,
    Version,
    HeaderLength,
    Unlawful,
    HouseLimit,
    ErasurePairing,
    ErasureUnknown,
    CompressionUnknown,
    Flags,
    Priority,
    Extension,
    TrailerShape,
    TrailerHash,
    ChunkShort,
    ChunkMagic,
    PayloadLong,
    ChunkHash,
    EndMarker,
    OtherFile,
    IndexRange,
    TypeIndex,
    Reserved,
    Identifiers,
    PayloadLength,
    Conflict,
    Barred,
    TallyFull,
    Few,
    ContentHash,
    OutputShort,
    NoDataBlock,
    Unfinished,
    WriterInput,
    WriterOutput,
    Note,
    Lent,
}

// The row of a reason. It promises that the table has that row, and not what `number_of` is: so each arm is proved by its own
// row alone, and a new number asks for no proof.
fn listed_number(reason: Reason) -> u8
    ensures { (reason ≡ reason_of result) × (number_of (reason_of result) ≡ result) }
{
    match reason {
        Reason::HeaderShort => 10,
        Reason::HeaderMagic => 11,
        Reason::Version => 12,
        Reason::HeaderLength => 13,
        Reason::Unlawful => 14,
        Reason::HouseLimit => 15,
        Reason::ErasurePairing => 16,
        Reason::ErasureUnknown => 17,
        Reason::CompressionUnknown => 18,
        Reason::Flags => 19,
        Reason::Priority => 20,
        Reason::Extension => 21,
        Reason::TrailerShape => 22,
        Reason::TrailerHash => 23,
        Reason::ChunkShort => 30,
        Reason::ChunkMagic => 31,
        Reason::PayloadLong => 32,
        Reason::ChunkHash => 33,
        Reason::EndMarker => 34,
        Reason::OtherFile => 35,
        Reason::IndexRange => 36,
        Reason::TypeIndex => 37,
        Reason::Reserved => 38,
        Reason::Identifiers => 39,
        Reason::PayloadLength => 40,
        Reason::Conflict => 41,
        Reason::Barred => 42,
        Reason::TallyFull => 43,
        Reason::Few => 50,
        Reason::ContentHash => 51,
        Reason::OutputShort => 52,
        Reason::NoDataBlock => 53,
        Reason::Unfinished => 54,
        Reason::WriterInput => 60,
        Reason::WriterOutput => 61,
        Reason::Note => 70,
        Reason::Lent => 71,
    }
}

// The number of the table.
impl From<Reason> for u8 {
    ghost from_gives = { λ reason result. result ≡ number_of reason };

    fn from(reason: Reason) -> u8 {
        listed_number(reason)
    }
}
