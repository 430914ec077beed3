//! Exact sums of energies.
ghost use Rattle.std.specs.Prelude.{◌≡◌, ◌+◌, ◌-◌, ◌<◌, ◌≤◌, ◌^◌, pos, ◌≤ℤ◌, Some, IsSomeAnd};
ghost use Rattle.fix_interval.specs.Bounds.{AreBetween};
ghost use Rattle.fix_interval.specs.Tree.{Known, Const, Add, enc};
ghost use Rattle.energy_sum.specs.Sums.{units_of};

use fix_interval::Iv;
use std::marker::Model;

/// A sum of energies, as an interval that isn't below 0. Contracts see it as that interval.
#[derive(Clone, Copy, Drop)]
pub struct Sum {
    lo: u128,
    hi: u128,
}

impl Model for Sum {
    ghost use Rattle.std.specs.Prelude.{pos, Some, unsigned_abs, unwrap_or};
    ghost use Rattle.fix_interval.specs.Interval.{Interval};
    ghost use Rattle.energy_sum.specs.Sums.{IsSum, units_of};

    ghost Value = { Interval };

    ghost view = { λ s. record { lo = Some (pos s.lo); hi = Some (pos s.hi) } };

    ghost invariant = { λ s. IsSum s.lo s.hi };

    ghost inverse = { λ i. record { lo = units_of i.lo; hi = units_of i.hi } };
}

impl Sum {
    /// The sum of no energies.
    pub fn zero() -> Sum
        ensures { result ≡ enc (Const (pos 0) 1) }
    {
        Sum { lo: 0, hi: 0 }
    }

    /// Adds an energy, exactly: the low ends and the high ends are added.
    pub fn add(&mut self, e: Iv)
        requires low { IsSomeAnd e.lo (λ z. pos 0 ≤ℤ z) }
        requires high { IsSomeAnd e.hi (λ z. pos 0 ≤ℤ z) }
        requires below { units_of self.old.hi + units_of e.hi < 2 ^ 126 }
        ensures { self.new ≡ enc (Add (Known self.old) (Known e)) }
    {
        self.lo += e.low().unwrap() as u128;
        self.hi += e.high().unwrap() as u128;
    }

    /// Takes off an energy that was added before: the low end is subtracted from the low end, the high end from the high end.
    /// Where the energy is added again, the sum is again what it was.
    pub fn take_off(&mut self, e: Iv)
        requires low { IsSomeAnd e.lo (λ z. pos 0 ≤ℤ z) }
        requires high { IsSomeAnd e.hi (λ z. pos 0 ≤ℤ z) }
        requires part { units_of e.lo ≤ units_of self.old.lo }
        requires ordered { units_of self.old.lo + units_of e.hi ≤ units_of self.old.hi + units_of e.lo }
        ensures low { self.new.lo ≡ Some (pos (units_of self.old.lo - units_of e.lo)) }
        ensures high { self.new.hi ≡ Some (pos (units_of self.old.hi - units_of e.hi)) }
        ensures again { enc (Add (Known self.new) (Known e)) ≡ self.old }
    {
        self.lo -= e.low().unwrap() as u128;
        self.hi -= e.high().unwrap() as u128;
    }

    /// The sum as an interval.
    pub fn interval(&self) -> Iv
        ensures value { result ≡ self.now }
        ensures bounds { AreBetween (pos 0) (pos (2 ^ 126 - 1)) result }
    {
        Iv::of_ends(Some(self.lo as i128), Some(self.hi as i128))
    }
}
