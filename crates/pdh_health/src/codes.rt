//! The first codes of a node.

ghost use Rattle.std.specs.Prelude.{◌≡◌, ◌≤◌, List, [], ◌∷◌, ◌++◌, take};
ghost use Rattle.pdh_cells.specs.declared.cell.Code.{Code};

use pdh_cells::Code;

/// How many codes are kept.
pub const KEPT_CODES: usize = 3;

/// The first codes that came, three at most.
#[derive(Clone, Copy)]
pub struct FirstCodes {
    codes: [Code; KEPT_CODES],
    count: usize,
    ghost few: { count ≤ 3 },
}

impl FirstCodes {
    ghost use Rattle.pdh_health.specs.Kept.{kept_codes};

    /// None came.
    pub fn none() -> FirstCodes
        ensures { kept_codes result ≡ [] }
    {
        let code = Code { code: 0, place: 0 };
        FirstCodes {
            codes: [code; KEPT_CODES],
            count: 0,
        }
    }

    /// With one more, if there is room.
    pub fn plus(self, code: Code) -> FirstCodes
        ensures { (all : List Code) → kept_codes self ≡ take 3 all → kept_codes result ≡ take 3 (all ++ code ∷ []) }
    {
        if self.count == KEPT_CODES {
            return self;
        }
        let mut codes = self.codes;
        codes[self.count] = code;
        FirstCodes {
            codes,
            count: self.count + 1,
        }
    }

    /// They, in their order.
    pub fn codes(&self) -> &[Code]
        ensures { result.now ≡ kept_codes self.now }
    {
        &self.codes[..self.count]
    }
}
