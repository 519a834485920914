// What tallying a sheet answers.
use sheet::records::RecordFault;

// Why a sheet is not tallied.
#[derive(Clone, Copy, Debug, PartialEq, Eq, Hash)]
pub enum SheetError {
    BadPart,
    // The spare is shorter than the output.
    Misfit,
    // The mark, the version or the framing, with the number of the record.
    Malformed(u32),
    Record { fault: RecordFault, index: u32 },
    // With the number of the record, or of records.
    NoRoom(u32),
    // With the number of records.
    TooMany(u32),
}
