// A name, and the number that it was noted with.
#[derive(Clone, Copy)]
pub(crate) struct Entry<'t> {
    pub(crate) name: &'t [u8],
    pub(crate) number: u16,
}

impl<'t> Default for Entry<'t> {
    fn default() -> Entry<'t> {
        Entry {
            name: b"",
            number: 0,
        }
    }
}

// Why a name is not noted.
#[derive(Clone, Copy, PartialEq, Eq, Debug)]
pub enum Refusal {
    // it was noted before
    Repeated,
    // as many names are noted as there is room for
    Full,
}
