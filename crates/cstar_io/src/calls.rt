ghost use Rattle.std.specs.Prelude.{◌≡◌, ◌+◌, ◌-◌, ◌^◌, min, []};
ghost use Rattle.cstar_io.specs.Faults.{RisesBy};
ghost use Rattle.cstar_io.specs.Memory.{next_is_listed, one_more};

/// Counts calls by numbers from 1, of which those listed are to fail, and counts the faults.
#[derive(Drop)]
pub struct Calls {
    pub failing: Vec<u64>,
    pub made: u64,
    pub faults: u64,
}

impl Calls {
    pub fn new(failing: Vec<u64>) -> Calls
        ensures { result ≡ record { failing = failing; made = 0; faults = 0 } }
    {
        Calls {
            failing,
            made: 0,
            faults: 0,
        }
    }

    /// Counts a call. Whether it is to fail.
    pub fn next_fails(&mut self) -> bool
        ensures listed { result ≡ next_is_listed self.old.made self.old.failing.items }
        ensures counted { self.new.made ≡ one_more self.old.made }
        ensures failing { self.new.failing ≡ self.old.failing }
        ensures faults { self.new.faults ≡ self.old.faults }
    {
        let made = self.made;
        self.made = made.saturating_add(1);
        is_listed(self.failing.as_slice(), made)
    }

    /// Counts a fault.
    pub fn fault(&mut self)
        ensures one { self.new ≡ record self.old { faults = one_more self.old.faults } }
        ensures rises { RisesBy self.old.faults self.new.faults }
    {
        self.faults = self.faults.saturating_add(1);
    }
}

/// Whether the call behind this many is listed.
fn is_listed(failing: &[u64], made: u64) -> bool
    ensures { result ≡ next_is_listed made failing.now }
{
    failing
        .iter()
        .any(|number| *number > 0 && *number - 1 == made)
}
