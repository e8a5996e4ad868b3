//! Records behind gates. Each is on the disk before its gate is opened.
ghost use Rattle.std.specs.Prelude.{◌≡◌, ◌≢◌, ◌⊎◌, ◌<◌, ◌≤◌, ◌+◌, ◌-◌, ◌++◌, [], ◌∷◌, ℕ, length, take, vec_capacity, IfOk, IfErr, IfSome, OnOk, OnErr, IsErr, IsErrOf, Ok, Err, None, Some};
ghost use Rattle.pg_io.specs.Causes.{Rose};
ghost use Rattle.pg_io.specs.Disk.{Only, Within, LeavesOnly, Still};
ghost use Rattle.journal.specs.Attaching.{disk_of, WhyAttached, IsReading, LeavesThen, RoseIfFailed, PassedUnlessFailed};
ghost use Rattle.journal.specs.Records.{IsRecord, AreRecords, IsPieceAt, IsShutAt, IsBadAt, Passes, Reads, BeginsAsJournal, behind_text, front, head, journal_in};

use crate::keeping::{KeepFault, Keeper};
use crate::pieces::{JournalFault, read_piece};
use crate::stage::Phase;
use crate::through::write_through;
use pg_io::{Disk, Failed};
use sql_base::{NoMemory, SqlBytes};
use std::alloc::Global;
use std::marker::Model;
use std::snapshot::Snapshot;

/// The most bytes that a journal may have.
pub const JOURNAL_LIMIT: u64 = 1_073_741_824;

const HEAD: [u8; 8] = *b"ROLLJNL1";

/// A list of records on a disk.
///
/// The file begins with `ROLLJNL1`. Then, from offset 8 on, each record is a gate byte, its length in four bytes (the
/// highest first) and its bytes. A gate is open where its byte is 1; the list ends at the first closed gate, and what
/// follows that isn't looked at.
#[derive(Drop)]
pub struct Journal<D: Disk> {
    disk: D,
    start: Snapshot<D>,
    first: u64,
    gate: u64,
    phase: Phase,
    alloc: Global,
    text: Vec<u8>,
}

impl<D: Disk> Model for Journal<D> {
    ghost use Rattle.std.specs.Prelude.{◌-◌, vec_capacity};
    ghost use Rattle.journal.specs.Story.{Log, story_of, IsKept};

    ghost Value = { Log D };

    ghost view = { λ j. record { story = story_of D.seen j.disk j.start.value j.first j.gate j.phase; room = vec_capacity j.text - 5 } };

    ghost invariant = { λ j. D.tells → IsKept D.moment D.seen D.may_leave D.left_since (story_of D.seen j.disk j.start.value j.first j.gate j.phase) };
}

/// What stands on a disk.
#[derive(Drop)]
pub enum Attached<D: Disk> {
    /// A journal, whose records are read next.
    Ready(Journal<D>),
    /// No byte.
    Empty(D),
    /// Bytes that don't begin as a journal does.
    NotJournal(D),
    /// The disk failed.
    Failed(D),
}

// Makes of the text what stands behind the gate of a record.
fn write_text(text: &mut Vec<u8>, body: &[u8])
    requires body { IsRecord body.now }
    requires room { length body.now + 5 ≤ vec_capacity text.old }
    ensures text { text.new.items ≡ behind_text body.now }
    ensures room { vec_capacity text.old ≤ vec_capacity text.new }
{
    text.clear();
    text.extend_from_slice(&(body.len() as u32).to_be_bytes())
        .unwrap();
    text.extend_from_slice(body).unwrap();
    text.push(0).unwrap();
}

impl<D: Disk> Journal<D> {
    ghost use Rattle.journal.specs.Story.{IsAllBut, Promises, Appends};

    /// A journal of no records, on an empty disk. An error comes where the disk failed, and gives the disk back.
    pub fn create(alloc: Global, disk: D) -> Result<Self, (Failed, D)>
        requires empty { D.tells → D.seen disk ≡ [] }
        ensures stands { IfOk result (λ j. j.story.phase ≡ Phase.Standing) }
        ensures empty { D.tells → IfOk result (λ j. (j.story.base ≡ []) × (j.story.added ≡ []) × (j.story.pending ≡ [])) }
        ensures text { D.tells → IfOk result (λ j. D.seen j.story.disk ≡ head ++ 0 ∷ []) }
        ensures start { IfOk result (λ j. j.story.start ≡ j.story.disk) }
        ensures failed { IfErr result (λ e. Rose (D.faults disk) (D.faults e.1)) }
        ensures passed { IfOk result (λ j. D.faults j.story.disk ≡ D.faults disk) }
        ensures later { IfOk result (λ j. D.faults disk ≤ D.faults j.story.disk) }
    {
        let mut disk = disk;
        let Ok(()) = disk.write_at(0, &[82, 79, 76, 76, 74, 78, 76, 49, 0]) else {
            return Err((Failed, disk));
        };
        let Ok(()) = disk.sync() else {
            return Err((Failed, disk));
        };
        let start = Snapshot::of(&disk);
        Ok(Journal {
            disk,
            start,
            first: 8,
            gate: 8,
            phase: Phase::Standing,
            alloc,
            text: Vec::new(alloc),
        })
    }

    /// The journal on a disk, whose records are read next. It begins with a sync, and writes nothing.
    pub fn attach(alloc: Global, disk: D) -> Attached<D>
        ensures why { D.tells → WhyAttached D.moment D.seen disk result }
        ensures reading { IsReading result }
        ensures failed { RoseIfFailed D.faults disk result }
        ensures passed { PassedUnlessFailed D.faults disk result }
        ensures seen { D.tells → D.seen (disk_of result) ≡ D.seen disk }
        ensures images { D.tells → LeavesOnly D.moment D.left_since disk (disk_of result) (D.may_leave disk) }
        ensures leaves { D.tells → LeavesThen D.seen D.may_leave disk result }
        ensures later { D.faults disk ≤ D.faults (disk_of result) }
    {
        let mut disk = disk;
        let Ok(()) = disk.sync() else {
            return Attached::Failed(disk);
        };
        let start = Snapshot::of(&disk);
        let Ok(len) = disk.len() else {
            return Attached::Failed(disk);
        };
        if len == 0 {
            return Attached::Empty(disk);
        }
        if len < 8 {
            return Attached::NotJournal(disk);
        }
        let mut head = [0; 8];
        let Ok(()) = disk.read_at(0, &mut head) else {
            return Attached::Failed(disk);
        };
        if head != HEAD {
            return Attached::NotJournal(disk);
        }
        Attached::Ready(Journal {
            disk,
            start,
            first: 8,
            gate: 8,
            phase: Phase::Reading,
            alloc,
            text: Vec::new(alloc),
        })
    }

    /// The next record behind an open gate, with its gate's offset; none at the first closed gate, and from then on
    /// records can be appended.
    ///
    /// `Failed` comes where the disk failed, `NoMemory` where memory is wanting, and `BadRecord` where no gate stands
    /// at its offset or where behind an open gate the length is cut off, is 0, is more than 134,217,728 or passes the
    /// file's end. After each of them the same record comes next.
    pub fn next(&mut self) -> Result<Option<(u64, SqlBytes)>, JournalFault>
        requires { self.old.story.phase ≡ Phase.Reading }
        ensures more { D.tells → IfOk result (λ o. IfSome o (λ p. (p.0 ≡ self.old.story.gate) × (self.new.story.base ≡ self.old.story.base ++ p.1 ∷ []))) }
        ensures piece { D.tells → IfOk result (λ o. IfSome o (λ p. IsPieceAt (D.seen self.old.story.disk) p.0 p.1)) }
        ensures record { IfOk result (λ o. IfSome o (λ p. IsRecord p.1)) }
        ensures gate { IfOk result (λ o. IfSome o (λ p. self.new.story.gate ≡ self.old.story.gate + 5 + length p.1)) }
        ensures still { IfOk result (λ o. IfSome o (λ p. self.new.story.phase ≡ Phase.Reading)) }

        ensures end { result ≡ Ok None → self.new.story.phase ≡ Phase.Standing }
        ensures shut { D.tells → result ≡ Ok None → IsShutAt (D.seen self.old.story.disk) self.old.story.gate }
        ensures all { D.tells → result ≡ Ok None → (self.new.story.base ≡ self.old.story.base)
            × (self.new.story.added ≡ []) × (self.new.story.pending ≡ []) }
        ensures reads { D.tells → result ≡ Ok None → Reads self.new.story.base (D.seen self.new.story.disk) }

        ensures err { OnErr result ((self.new.story.phase ≡ Phase.Reading) × (self.new.story.gate ≡ self.old.story.gate)) }
        ensures err_base { D.tells → OnErr result (self.new.story.base ≡ self.old.story.base) }
        ensures failed { IsErrOf result JournalFault.Failed → Rose (D.faults self.old.story.disk) (D.faults self.new.story.disk) }
        ensures passed { IsErrOf result JournalFault.Failed ⊎ (D.faults self.new.story.disk ≡ D.faults self.old.story.disk) }
        ensures bad { (at : ℕ) → result ≡ Err (JournalFault.BadRecord at) → (at ≡ self.old.story.gate) × (D.tells → IsBadAt (D.seen self.old.story.disk) at) }
        ensures all_bad { D.tells → IsBadAt (D.seen self.old.story.disk) self.old.story.gate → ¬ Rose (D.faults self.old.story.disk) (D.faults self.new.story.disk) → result ≡ Err (JournalFault.BadRecord self.old.story.gate) }

        ensures absent { D.tells → (at : ℕ) → result ≡ Err (JournalFault.BadRecord at) → journal_in (D.seen self.old.story.disk) ≡ None }

        // Whatever it answers, the disk reads as before, and a crash leaves what it might have left.
        ensures disk { D.tells → Still D.moment D.seen D.may_leave D.left_since self.old.story.disk self.new.story.disk }
        ensures start { self.new.story.start ≡ self.old.story.start }
        ensures later { D.faults self.old.story.disk ≤ D.faults self.new.story.disk }
    {
        let at = self.gate;
        match read_piece(self.alloc, &mut self.disk, at) {
            Ok(Some(body)) => {
                self.gate = at + 5 + body.len() as u64;
                self.first = self.gate;
                Ok(Some((at, SqlBytes::from_vec(body))))
            }
            Ok(None) => {
                self.first = at;
                self.phase = Phase::Standing;
                Ok(None)
            }
            Err(fault) => {
                self.first = at;
                Err(fault)
            }
        }
    }

    /// What the type keeps of every crash, now and since the start: while the records are read, that it leaves the
    /// file as it is. And of a journal that stands, that the disk reads as its records and that a crash leaves just
    /// that.
    pub fn promise(&self)
        ensures untouched { D.tells → self.now.story.phase ≡ Phase.Reading
            → Only (D.seen self.now.story.disk) (D.left_since self.now.story.disk (D.moment self.now.story.start)) }
        ensures promises { D.tells → self.now.story.phase ≢ Phase.Reading → Promises D.moment D.seen D.may_leave D.left_since self.now.story }
        ensures reads { D.tells → self.now.story.phase ≡ Phase.Standing → Reads (self.now.story.base ++ self.now.story.added) (D.seen self.now.story.disk) }
        ensures durable { D.tells → self.now.story.phase ≡ Phase.Standing → Only (D.seen self.now.story.disk) (D.may_leave self.now.story.disk) }
        ensures gate { D.tells → self.now.story.gate ≡ length (front (self.now.story.base ++ self.now.story.added)) }
        ensures records { D.tells → AreRecords (self.now.story.base ++ self.now.story.added) }
    {
        let _ = &self.phase;
    }

    /// How far it has come: records can be read while it is `Reading`, and appended while it is `Standing`.
    pub fn phase(&self) -> Phase
        ensures { result ≡ self.now.story.phase }
    {
        self.phase
    }

    /// The disk.
    pub fn into_disk(self) -> D
        ensures { result ≡ self.story.disk }
    {
        let Journal { disk, .. } = self;
        disk
    }

    /// Makes spare room for one record of up to `n` bytes. An error is want of memory, and changes nothing but the
    /// room.
    pub fn reserve(&mut self, n: u32) -> Result<(), NoMemory>
        ensures room { OnOk result (n ≤ self.new.room) }
        ensures same { self.new.story ≡ self.old.story }
    {
        self.text.clear();
        self.text.reserve(n as usize + 5)?;
        Ok(())
    }

    /// Adds a record. At `Ok` each crash from then on leaves a file that has it.
    ///
    /// `Failed` comes where the disk failed, and then nothing more can be appended: the record may be on the disk or
    /// not. `Full` comes where the record would pass the journal's limit of 1,073,741,824 bytes.
    pub fn append(&mut self, body: &[u8]) -> Result<(), KeepFault>
        requires body { IsRecord body.now }
        requires room { length body.now ≤ self.old.room }
        requires stands { self.old.story.phase ≡ Phase.Standing }

        ensures stands { OnOk result (self.new.story.phase ≡ Phase.Standing) }
        ensures kept { D.tells → OnOk result ((self.new.story.added ≡ self.old.story.added ++ body.now ∷ []) × (self.new.story.pending ≡ [])) }
        ensures undone { D.tells → OnErr result (self.new.story.added ≡ self.old.story.added) }
        ensures base { D.tells → self.new.story.base ≡ self.old.story.base }
        ensures start { self.new.story.start ≡ self.old.story.start }

        ensures failed { IsErrOf result KeepFault.Failed → Rose (D.faults self.old.story.disk) (D.faults self.new.story.disk) }
        ensures passed { IsErrOf result KeepFault.Failed ⊎ (D.faults self.new.story.disk ≡ D.faults self.old.story.disk) }
        ensures fallen { IsErrOf result KeepFault.Failed → self.new.story.phase ≢ Phase.Standing }
        ensures pending { D.tells → (self.new.story.pending ≡ []) ⊎ (self.new.story.pending ≡ body.now ∷ []) }
        ensures full { Passes self.old.story.gate body.now → result ≡ Err (KeepFault.Full self.old.story.gate) }
        ensures only_full { (len : ℕ) → result ≡ Err (KeepFault.Full len) → (len ≡ self.old.story.gate) × Passes len body.now × (self.new.story ≡ self.old.story) }
        ensures later { D.faults self.old.story.disk ≤ D.faults self.new.story.disk }

        // After Ok every image has the records from before it and the new one.
        ensures now { D.tells → OnOk result (Within (D.may_leave self.new.story.disk) (Reads (self.old.story.base ++ (self.old.story.added ++ body.now ∷ [])))) }

        // And what a read gives is the journal's text, and then bytes that nobody looks at.
        ensures text { D.tells → OnOk result (BeginsAsJournal (self.new.story.base ++ self.new.story.added) (D.seen self.new.story.disk)) }

        // The record's gate stands behind the records from before.
        ensures place { D.tells → self.old.story.gate ≡ length (front (self.old.story.base ++ self.old.story.added)) }

        // A crash at any moment of the call leaves the records from before it, with the new one or without.
        ensures any_moment { D.tells → LeavesOnly D.moment D.left_since self.old.story.disk self.new.story.disk
            (IsAllBut (self.old.story.base ++ self.old.story.added) (body.now ∷ [])) }
    {
        let len = body.len() as u64;
        if JOURNAL_LIMIT - 6 - len < self.gate {
            return Err(KeepFault::Full { len: self.gate });
        }
        write_text(&mut self.text, body);
        let Ok(()) = write_through(&mut self.disk, self.gate + 1, &self.text) else {
            self.phase = Phase::Fallen;
            return Err(KeepFault::Failed);
        };
        let Ok(()) = write_through(&mut self.disk, self.gate, &[1]) else {
            self.phase = Phase::Undecided;
            return Err(KeepFault::Failed);
        };
        self.gate += 5 + len;
        Ok(())
    }
}

impl<D: Disk> Keeper for Journal<D> {
    ghost use Rattle.journal.specs.Story.{Story, Appends};
    ghost use Rattle.journal.specs.declared.stage.Phase.TheVariants.{Standing};

    ghost tells = { D.tells };

    ghost Meaning = { Story D };

    ghost meaning = { λ j. j.story };

    ghost records = { λ j. j.story.base ++ j.story.added };

    ghost stands = { λ j. j.story.phase ≡ Standing };

    ghost room = { λ j. j.room };

    ghost faults = { λ j. D.faults j.story.disk };

    ghost appends = { λ old new r. D.tells → Appends D.moment D.left_since old new r };

    fn reserve(&mut self, n: u32) -> Result<(), NoMemory> {
        Journal::reserve(self, n)
    }

    fn append(&mut self, body: &[u8]) -> Result<(), KeepFault> {
        Journal::append(self, body)
    }
}
