// The first record of a log: the number of instances and of events of its chart.
#[derive(Clone, Copy, PartialEq, Eq, Debug)]
pub struct Head {
    pub width: u8,
    pub events: u16,
}

// An event that has run, named by its instance, its kind and the number of its message or action.
#[derive(Clone, Copy, PartialEq, Eq, Debug)]
pub struct Entry {
    pub instance: u8,
    pub kind: u8,
    pub number: u16,
}

// The last record of a log: the number of its entries.
#[derive(Clone, Copy, PartialEq, Eq, Debug)]
pub struct End {
    pub count: u16,
}

// A record of a log.
#[derive(Clone, Copy, PartialEq, Eq, Debug)]
pub enum Record {
    Head(Head),
    Entry(Entry),
    End(End),
}

// Why no record is read.
#[derive(Clone, Copy, PartialEq, Eq, Debug)]
pub enum Flaw {
    // the bytes end before the record does
    CutShort,
    // no kind of record has that number and that length
    WrongForm,
}
