// The refusals: each has the number that callers and the report of a refusal go by. docs/REFUSALS.md says what each means for a module.
ghost use Rattle.std.specs.Prelude.{◌≡◌};
ghost use Rattle.words.specs.Refusal.{refusal_number};

#[derive(Clone, Copy, Debug, PartialEq, Eq)]
pub enum Refusal {
    // what is handed in
    Sheet,
    Arena,
    Duplicate,
    Types,
    // a file
    NoSharedObject,
    OtherMachine,
    HeaderTable,
    Segments,
    Alignment,
    Room,
    NoDynamicArray,
    NoTables,
    TableSizes,
    TableBytes,
    // a query
    Requester,
    NameList,
    // an order of the caller's
    Order,
    // an entry
    SymbolIndex,
    SymbolBytes,
    Irelative,
    RefusedType,
    NotWritable,
    CopyRange,
    FieldRange,
    Crossing,
    // the set as a whole
    Undefined,
    ReportRoom,
    Arrays,
    ListRoom,
}

impl From<Refusal> for u32 {
    ghost from_gives = { λ r n. n ≡ refusal_number r };

    fn from(refusal: Refusal) -> u32 {
        match refusal {
            Refusal::Sheet => 1,
            Refusal::Arena => 2,
            Refusal::Duplicate => 3,
            Refusal::Types => 24,
            Refusal::NoSharedObject => 4,
            Refusal::OtherMachine => 5,
            Refusal::HeaderTable => 6,
            Refusal::Segments => 7,
            Refusal::Alignment => 21,
            Refusal::Room => 8,
            Refusal::NoDynamicArray => 9,
            Refusal::NoTables => 10,
            Refusal::TableSizes => 11,
            Refusal::TableBytes => 12,
            Refusal::Requester => 13,
            Refusal::NameList => 23,
            Refusal::Order => 35,
            Refusal::SymbolIndex => 14,
            Refusal::SymbolBytes => 15,
            Refusal::Irelative => 16,
            Refusal::RefusedType => 25,
            Refusal::NotWritable => 17,
            Refusal::CopyRange => 18,
            Refusal::FieldRange => 22,
            Refusal::Crossing => 28,
            Refusal::Undefined => 19,
            Refusal::ReportRoom => 20,
            Refusal::Arrays => 26,
            Refusal::ListRoom => 27,
        }
    }
}
