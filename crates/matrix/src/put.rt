// An entry to be set.
#[derive(Clone, Copy, Debug)]
pub struct Put {
    pub row: u32,
    pub column: u32,
    pub code: u16,
}
