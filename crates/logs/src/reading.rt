ghost use Rattle.std.specs.Prelude.{◌≡◌};
ghost use Rattle.logs.specs.Causes.{of_flaw};
ghost use Rattle.logs.specs.Reading.{ReadsOne};

use crate::parts::Cause;
use records::{Flaw, Record};

impl From<Flaw> for Cause {
    ghost from_gives = { λ flaw cause. cause ≡ of_flaw flaw };

    fn from(flaw: Flaw) -> Cause {
        match flaw {
            Flaw::CutShort => Cause::CutShort,
            Flaw::WrongForm => Cause::WrongRecord,
        }
    }
}

// The one record that has these bytes.
pub(crate) fn read_one(bytes: &[u8]) -> Result<Record, Cause>
    ensures { ReadsOne bytes.now result }
{
    match Record::read(bytes) {
        Ok((record, length)) if length == bytes.len() => Ok(record),
        Ok(_) => Err(Cause::WrongRecord),
        Err(flaw) => Err(Cause::from(flaw)),
    }
}
