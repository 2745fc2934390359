ghost use Rattle.std.specs.Prelude.{◌≡◌, ◌≤◌, IsTrue, IsFalse};
ghost use Rattle.xl_base.specs.Counts.{one_more};
ghost use Rattle.xl_base.specs.Faults.{Rose};
ghost use Rattle.xl_io.specs.Scripts.{is_listed};

/// The calls of an object in memory that are to fail, and how many calls and faults there were.
#[derive(Drop)]
pub struct Failures {
    /// The numbers of those calls, from 1.
    failing: Vec<u64>,
    calls: u64,
    count: u64,
}

impl Failures {
    pub fn new(failing: Vec<u64>) -> Self
        ensures failing { result.failing ≡ failing }
        ensures calls { result.calls ≡ 0 }
        ensures count { result.count ≡ 0 }
    {
        Failures {
            failing,
            calls: 0,
            count: 0,
        }
    }

    /// The number of the last call, 0 if there was none.
    pub fn calls(&self) -> u64
        ensures { result ≡ self.now.calls }
    {
        self.calls
    }

    /// How many faults there were.
    pub fn count(&self) -> u64
        ensures { result ≡ self.now.count }
    {
        self.count
    }

    /// Counts a call, and says whether it is to fail. A call that is to fail is a fault.
    pub fn next_fails(&mut self) -> bool
        ensures fails { result ≡ is_listed (record { failing = self.new.failing.items; calls = self.new.calls }) }
        ensures failing { self.new.failing ≡ self.old.failing }
        ensures calls { self.new.calls ≡ one_more self.old.calls }
        ensures later { self.old.count ≤ self.new.count }
        ensures rose { IsTrue result → Rose self.old.count self.new.count }
        ensures exact { IsFalse result → self.new.count ≡ self.old.count }
    {
        self.calls = self.calls.saturating_add(1);
        let fails = self.failing.contains(&self.calls);
        if fails {
            self.count_one();
        }
        fails
    }

    /// Counts a fault.
    pub fn count_one(&mut self)
        ensures failing { self.new.failing ≡ self.old.failing }
        ensures calls { self.new.calls ≡ self.old.calls }
        ensures later { self.old.count ≤ self.new.count }
        ensures rose { Rose self.old.count self.new.count }
    {
        self.count = self.count.saturating_add(1);
    }
}
