// Where an instance stands, and how many of its messages are on the way to each instance: an array, for the reason of the rows.
#[derive(Clone, Copy)]
pub struct Row {
    pub(crate) position: u16,
    pub(crate) sent: [u16; 32],
}

// The row of an instance that has not stepped.
pub(crate) const NEW_ROW: Row = Row {
    position: 0,
    sent: [0; 32],
};
