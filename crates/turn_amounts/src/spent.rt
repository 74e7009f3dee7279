//! What is spent in turns: units, and checked answers.
ghost use Rattle.std.specs.Prelude.{◌≡◌, ◌≤◌, ◌+◌, ◌-◌, true, false};
ghost use Rattle.turn_amounts.specs.Spent.{IsUpFrom, no_spending, spent_in_all, spent_together, total_of};

/// What was spent to learn something. Both counts stop at 2^64 - 1.
#[derive(Clone, Copy, Debug, PartialEq, Eq)]
pub struct Spent {
    /// The units that were spent on lines, records and values.
    pub units: u64,
    /// The answers that were checked, of evaluations that were kept.
    pub checks: u64,
}

impl Spent {
    /// The amounts of a turn in which nothing was spent: no unit, and no checked answer.
    pub fn nothing() -> Spent
        ensures { result ≡ no_spending }
    {
        Spent {
            units: 0,
            checks: 0,
        }
    }

    /// Whether nothing was spent: no unit, and no checked answer.
    pub fn is_nothing(self) -> bool
        ensures nothing { result ≡ true → self ≡ no_spending }
        ensures some { result ≡ false → 1 ≤ total_of self }
    {
        self.units == 0 && self.checks == 0
    }

    /// The units and checked answers that were spent, with more that was spent after that.
    pub fn and(self, more: Spent) -> Spent
        ensures { result ≡ spent_together self more }
    {
        Spent {
            units: self.units.saturating_add(more.units),
            checks: self.checks.saturating_add(more.checks),
        }
    }
}

/// What was spent in a turn, in units and checked answers, by what was spent in all before it and after it.
pub fn spent_since(before: Spent, after: Spent) -> Spent
    requires { IsUpFrom before after }
    ensures { spent_in_all before result ≡ after }
{
    Spent {
        units: after.units - before.units,
        checks: after.checks - before.checks,
    }
}

/// What is left of so many units of a turn, by what was spent in all before it and after it. Each checked
/// answer counts as a unit.
pub fn left_of(units: u64, before: Spent, after: Spent) -> u64
    requires { IsUpFrom before after }
    ensures { result ≡ units - ((after.units - before.units) + (after.checks - before.checks)) }
{
    let spent = spent_since(before, after);
    units
        .saturating_sub(spent.units)
        .saturating_sub(spent.checks)
}
