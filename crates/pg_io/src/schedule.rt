//! Which calls of an object in memory are to fail.
ghost use Rattle.std.specs.Prelude.{◌≡◌, ◌≤◌, ◌↔◌, IsTrue, Contains};
ghost use Rattle.std.specs.Bool.{OnTrue, OnFalse};
ghost use Rattle.pg_io.specs.Causes.{one_more};

/// The calls that were made, those that are to fail, and how many have failed.
#[derive(Drop)]
pub struct Schedule {
    pub made: u64,
    pub failing: Vec<u64>,
    pub faults: u64,
}

impl Schedule {
    /// Nothing was called yet. `failing` lists the calls that are to fail, the first one being 0.
    pub fn new(failing: Vec<u64>) -> Self
        ensures made { result.made ≡ 0 }
        ensures failing { result.failing ≡ failing }
        ensures faults { result.faults ≡ 0 }
    {
        Schedule {
            made: 0,
            failing,
            faults: 0,
        }
    }

    /// Counts a call, and says whether it is to fail; then the fault is counted too.
    pub fn is_due(&mut self) -> bool
        ensures listed { IsTrue result ↔ Contains self.old.failing.items self.old.made }
        ensures made { self.new.made ≡ one_more self.old.made }
        ensures failing { self.new.failing ≡ self.old.failing }
        ensures due { OnTrue result (self.new.faults ≡ one_more self.old.faults) }
        ensures later { self.old.faults ≤ self.new.faults }
        ensures passed { OnFalse result (self.new.faults ≡ self.old.faults) }
    {
        let due = self.failing.contains(&self.made);
        self.made = self.made.saturating_add(1);
        if due {
            self.fail();
        }
        due
    }

    /// Counts a fault.
    pub fn fail(&mut self)
        ensures made { self.new.made ≡ self.old.made }
        ensures failing { self.new.failing ≡ self.old.failing }
        ensures faults { self.new.faults ≡ one_more self.old.faults }
        ensures later { self.old.faults ≤ self.new.faults }
    {
        self.faults = self.faults.saturating_add(1);
    }
}
