// Refusals: the reasons for which a call is refused, with their numbers, and a check that refuses for one.
ghost use Rattle.std.specs.Prelude.{◌≡◌, [], ◌∷◌};
ghost use Rattle.plate.specs.Refusals.{judged, row};
ghost use Rattle.plate.specs.Answers.{answered, number_by, placed_check};

// The reasons with their numbers in the order of document 01's table (section 5), with those of document 02. The
// definitions have the numbers in specs/RefusalNumbers.antt, and the contracts hold these to those: a call that
// refused with another number would not meet its own.
#[derive(Clone, Copy, Debug, PartialEq, Eq)]
pub enum Reason {
    Size = 1,
    Length = 2,
    Gaps = 3,
    Directions = 4,
    Mode = 5,
    Input = 6,
    Result = 7,
    Work = 8,
    Reading = 9,
    Correction = 10,
    Place = 11,
    NoPath = 12,
    Line = 13,
    Text = 14,
    Full = 15,
    Spent = 16,
    NoEntry = 17,
    Ends = 18,
    Figure = 19,
    Bounds = 20,
}

// Why a call is refused, and at which place. By hand: 0 where the reason has none, since the definition's
// `refused` has a place for every reason, and C is told one.
#[derive(Clone, Copy, Debug, PartialEq, Eq)]
pub struct Refusal {
    pub reason: Reason,
    pub place: usize,
}

impl Reason {
    // The reason's number in the table.
    pub fn number(self) -> usize
        ensures { result ≡ number_by self }
    {
        self as usize
    }

    // A check of the table without a place.
    pub fn refuse_if(self, fault: bool) -> Result<(), Refusal>
        ensures { answered result ≡ judged (row (number_by self) fault 0 ∷ []) tt }
    {
        if fault {
            return Err(Refusal {
                reason: self,
                place: 0,
            });
        }
        Ok(())
    }

    // A check of the table that found a fault at some place or at none.
    pub fn refuse_at(self, fault: Option<usize>) -> Result<(), Refusal>
        ensures { answered result ≡ judged (placed_check self fault ∷ []) tt }
    {
        match fault {
            Some(place) => Err(Refusal {
                reason: self,
                place,
            }),
            None => Ok(()),
        }
    }
}

impl Refusal {
    // The number of its reason.
    pub fn number(self) -> usize
        ensures { result ≡ number_by self.reason }
    {
        self.reason.number()
    }
}
