//! The faults of one date, between its updates.
ghost use Rattle.std.specs.Prelude.{◌≡◌, ◌<◌, ◌+◌, ◌^◌, true, [], ◌∷◌, ◌++◌, length, IfOk, OnOk, OnErr};

use q_values::NoMemory;
use std::alloc::Global;
use std::marker::Model;

/// A disk fault, and where it stands among the updates of its date.
#[derive(Clone, Copy)]
pub struct Mark {
    /// The number of the pass that made it.
    pub by: u64,
    /// The number of updates between the fault before it, or the start of the date, and it.
    pub gap: u64,
}

/// The faults of one date, in order.
#[derive(Drop)]
pub struct Faults {
    // the faults; there may be room for one more
    marks: Vec<Mark>,
    // the number of updates after the last fault
    since: u64,
}

impl Model for Faults {
    ghost use Rattle.std.specs.Prelude.{nat_lt};
    ghost use Rattle.std.specs.Vec.{vec_len, vec_capacity};
    ghost use Rattle.plant_memory.specs.Faults.{FaultsView};

    ghost Value = { FaultsView };

    ghost view = { λ f. record { marks = f.marks.items; since = f.since; spare = nat_lt (vec_len f.marks) (vec_capacity f.marks) } };
}

impl Faults {
    /// No faults, with room for one.
    pub fn new(alloc: Global) -> Result<Faults, NoMemory>
        ensures { IfOk result (λ faults. faults ≡ record { marks = []; since = 0; spare = true }) }
    {
        Ok(Faults {
            marks: Vec::with_capacity(alloc, 1)?,
            since: 0,
        })
    }

    /// The number of faults.
    pub fn len(&self) -> usize
        ensures { result ≡ length self.now.marks }
    {
        self.marks.len()
    }

    /// The faults, in order.
    pub fn marks(&self) -> &[Mark]
        ensures { result.now ≡ self.now.marks }
    {
        self.marks.as_slice()
    }

    /// Makes room for one more fault. An error changes nothing.
    pub fn reserve(&mut self) -> Result<(), NoMemory>
        ensures ok { OnOk result (self.new ≡ record self.old { spare = true }) }
        ensures err { OnErr result (self.new ≡ self.old) }
    {
        self.marks.reserve(1)?;
        Ok(())
    }

    /// Counts this many updates, which the next fault follows.
    pub fn count_updates(&mut self, more: u64)
        requires { self.old.since + more < 2 ^ 64 }
        ensures { self.new ≡ record self.old { since = self.old.since + more } }
    {
        self.since += more;
    }

    /// Appends a fault of this pass, after the updates that were counted. It takes no memory.
    pub fn push(&mut self, by: u64)
        requires { self.old.spare ≡ true }
        ensures marks { self.new.marks ≡ self.old.marks ++ record { by = by; gap = self.old.since } ∷ [] }
        ensures since { self.new.since ≡ 0 }
    {
        let gap = self.since;
        self.marks.push_reserved(Mark { by, gap });
        self.since = 0;
    }

    /// Equal faults.
    pub fn copy(&self, alloc: Global) -> Result<Faults, NoMemory>
        ensures { IfOk result (λ copied. copied ≡ record self.now { spare = copied.spare }) }
    {
        Ok(Faults {
            marks: Vec::from_slice(alloc, &self.marks)?,
            since: self.since,
        })
    }
}
