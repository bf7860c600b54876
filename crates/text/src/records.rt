// A line of a record's text.

// What a line says of its qubit: its code, its neighbours, and whether it is used.
#[derive(Clone, Copy)]
pub struct RecordLine {
    pub code: u8,
    pub word: u64,
    pub used: bool,
}
