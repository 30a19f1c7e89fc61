ghost use Rattle.std.specs.Prelude.{◌≡◌};

use ps_bool::BoolPoly;
use std::marker::Model;

/// The outputs of a path sum, one Boolean polynomial for each qubit in order, or none.
#[derive(Drop)]
pub struct Outputs {
    polys: Vec<BoolPoly>,
}

impl Model for Outputs {
    ghost use Rattle.std.specs.Prelude.{List, ℕ};

    ghost Value = { List (List (List ℕ)) };

    ghost view = { λ o. o.polys.items };
}

impl Outputs {
    /// These polynomials, in order.
    pub fn of(polys: Vec<BoolPoly>) -> Outputs
        ensures { result ≡ polys.items }
    {
        Outputs { polys }
    }

    /// The polynomials, in order.
    pub fn polys(&self) -> &[BoolPoly]
        ensures { result.now ≡ self.now }
    {
        &self.polys
    }

    /// The polynomials, in order, given away. Takes no memory.
    pub fn into_polys(self) -> Vec<BoolPoly>
        ensures { result.items ≡ self }
    {
        let Outputs { polys } = self;
        polys
    }
}
