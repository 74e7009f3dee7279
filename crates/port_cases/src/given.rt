//! What the turns of a refresh are given in cases of refreshes: units, and a limit of the store's steps.

/// In which turn of a case's refresh each statement of the index's store may take so many steps at most.
#[derive(Clone, Copy)]
pub(crate) enum Limit {
    Never,
    /// In the turn with this number alone, counted from 0.
    In(usize, u64),
}

/// What the turns of a case's refresh are given: units for each, and the limit of statements.
#[derive(Clone, Copy)]
pub(crate) struct Given {
    pub(crate) units: u64,
    pub(crate) limit: Limit,
}

/// What a turn of a case's refresh is given: its units, and how many steps each statement of the index's
/// store may take at most, if there is a limit.
#[derive(Clone, Copy)]
pub(crate) struct TurnGiven {
    pub(crate) units: u64,
    pub(crate) steps: Option<u64>,
}

impl Given {
    /// So many units given to each turn of a case's refresh, and no limit of statements.
    pub(crate) fn unlimited(units: u64) -> Given {
        Given {
            units,
            limit: Limit::Never,
        }
    }

    /// What the turn of a case's refresh with this number is given.
    pub(crate) fn in_turn(self, number: usize) -> TurnGiven {
        let steps = match self.limit {
            Limit::In(turn, steps) if turn == number => Some(steps),
            Limit::Never | Limit::In(_, _) => None,
        };
        TurnGiven {
            units: self.units,
            steps,
        }
    }
}
