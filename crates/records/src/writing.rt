ghost use Rattle.std.specs.Prelude.{◌≡◌};
ghost use Rattle.records.specs.Records.{head_bytes, entry_bytes, end_bytes};

use crate::parts::{End, Entry, Head};

impl Head {
    // The bytes of the record.
    pub fn to_bytes(self) -> [u8; 7]
        ensures { result ≡ head_bytes self }
    {
        let [low, high] = self.events.to_le_bytes();
        [3, 0, 1, 0, self.width, low, high]
    }
}

impl Entry {
    // The bytes of the record.
    pub fn to_bytes(self) -> [u8; 8]
        ensures { result ≡ entry_bytes self }
    {
        let [low, high] = self.number.to_le_bytes();
        [4, 0, 2, 0, self.instance, self.kind, low, high]
    }
}

impl End {
    // The bytes of the record.
    pub fn to_bytes(self) -> [u8; 6]
        ensures { result ≡ end_bytes self }
    {
        let [low, high] = self.count.to_le_bytes();
        [2, 0, 3, 0, low, high]
    }
}
