ghost use Rattle.std.specs.Prelude.{◌≡◌, ℕ, List, [], ◌∷◌, ◌++◌, None, IsOk, ◌↔◌};
ghost use Rattle.media.specs.Media.{free};
ghost use Rattle.records.specs.Records.{entry_bytes};
ghost use Rattle.runs.specs.Runs.{fault_of, lists_of, medium_of, KeepsChart, StandsAfter};
ghost use Rattle.runs.specs.Tells.{RefusalKeeps};
ghost use Rattle.logs.specs.Followers.{one_more};
ghost use Rattle.logs.specs.Events.{TakesEntry, EventAnswers};
ghost use Rattle.logs.specs.Carried.{HasTaken, TakesMore, AllowedEntries, Closes};
ghost use Rattle.logs.specs.Ends.{TakesEnd, EndAnswers};

use crate::parts::{Cause, Closed, Following, Refusal, Verdict};
use crate::reading::read_one;
use crate::taking::{judge, take};
use media::Medium;
use records::{End, Entry, Record};
use runs::Run;

impl Following {
    // Ends the follower, and answers how many records it has taken; at the greatest number it stops counting.
    pub fn leave(self) -> usize
        ensures { result ≡ self.index }
    {
        let Following {
            index: taken,
            entries: _,
        } = self;
        taken
    }

    // A refusal of the record that it takes next.
    pub(crate) fn refuse(self, cause: Cause) -> (Following, Refusal)
        ensures { result ≡ (self, Refusal.Record self.index cause) }
    {
        let index = self.index;
        (self, Refusal::Record(index, cause))
    }

    // One entry more was taken.
    fn more(self) -> Following
        ensures { result ≡ one_more self }
    {
        let Following { index, entries } = self;
        Following {
            index: index.saturating_add(1),
            entries: entries.saturating_add(1).min(65_536),
        }
    }

    // Takes an entry.
    pub(crate) fn take_entry<M: Medium>(
        self,
        run: &mut Run<M>,
        entry: Entry,
    ) -> Result<Following, (Following, Refusal)>
        requires { fault_of run.old ≡ None }
        ensures takes { (h : List ℕ) → StandsAfter run.old h → TakesEntry (M.carries (medium_of run.old)) (lists_of run.old) h self entry result (StandsAfter run.new) }
        ensures keeps { KeepsChart run.old run.new }
        ensures refused { RefusalKeeps result run.old run.new }
    {
        match take(run, entry) {
            Ok(()) => Ok(self.more()),
            Err(cause) => Err(self.refuse(cause)),
        }
    }

    // Takes an entry of the log: it runs the event that the entry names.
    pub fn event<M: Medium>(
        self,
        run: &mut Run<M>,
        bytes: &[u8],
    ) -> Result<Following, (Following, Refusal)>
        ensures answers { (h : List ℕ) → StandsAfter run.old h → EventAnswers (fault_of run.old) (M.carries (medium_of run.old)) (lists_of run.old) h self bytes.now result (StandsAfter run.new) }
        ensures carries { (xs : List Entry) → HasTaken (M.carries (medium_of run.old)) run.old xs self → TakesMore (M.carries (medium_of run.new)) run.new xs bytes.now result }
        ensures annex { (xs : List Entry) (x : Entry) → HasTaken (M.carries (medium_of run.old)) run.old xs self → fault_of run.old ≡ None → M.carries (medium_of run.old) ≡ free → bytes.now ≡ entry_bytes x → IsOk result ↔ AllowedEntries (lists_of run.old) (xs ++ (x ∷ [])) }
        ensures keeps { KeepsChart run.old run.new }
        ensures refused { RefusalKeeps result run.old run.new }
    {
        if let Some(fault) = run.fault() {
            return Err((self, Refusal::Spoiled(fault)));
        }
        match read_one(bytes) {
            Ok(Record::Entry(entry)) => self.take_entry(run, entry),
            Ok(_) => Err(self.refuse(Cause::WrongRecord)),
            Err(cause) => Err(self.refuse(cause)),
        }
    }

    // Takes an end.
    pub(crate) fn take_end<M: Medium>(
        self,
        run: &Run<M>,
        end: End,
    ) -> Result<(Closed, Verdict), (Following, Refusal)>
        ensures { (h : List ℕ) → StandsAfter run.now h → TakesEnd (lists_of run.now) h self end result }
    {
        if u32::from(end.count) != self.entries {
            return Err(self.refuse(Cause::WrongCount));
        }
        let Following { index, entries: _ } = self;
        let closed = Closed {
            index: index.saturating_add(1),
        };
        Ok((closed, judge(run)))
    }

    // Takes the end of the log, and says whether it is full.
    pub fn end<M: Medium>(
        self,
        run: &Run<M>,
        bytes: &[u8],
    ) -> Result<(Closed, Verdict), (Following, Refusal)>
        ensures answers { (h : List ℕ) → StandsAfter run.now h → EndAnswers (fault_of run.now) (lists_of run.now) h self bytes.now result }
        ensures annex { (xs : List Entry) → HasTaken (M.carries (medium_of run.now)) run.now xs self → fault_of run.now ≡ None → M.carries (medium_of run.now) ≡ free → Closes run.now xs self bytes.now result }
    {
        if let Some(fault) = run.fault() {
            return Err((self, Refusal::Spoiled(fault)));
        }
        match read_one(bytes) {
            Ok(Record::End(end)) => self.take_end(run, end),
            Ok(_) => Err(self.refuse(Cause::WrongRecord)),
            Err(cause) => Err(self.refuse(cause)),
        }
    }
}
