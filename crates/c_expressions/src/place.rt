// Where an expression stands.

ghost use Rattle.std.specs.Prelude.{◌≡◌};
ghost use Rattle.c_expressions.specs.Told.{is_looser};

/// What may stand in a place without parentheses: a sum, a product, or neither.
#[derive(Clone, Copy, Debug, PartialEq, Eq)]
pub enum Place {
    Sum,
    Product,
    Factor,
}

impl Place {
    // Whether such a thing needs parentheses in a place.
    pub(crate) fn is_looser(self, place: Place) -> bool
        ensures { result ≡ is_looser self place }
    {
        match self {
            Place::Sum => match place {
                Place::Sum => false,
                Place::Product | Place::Factor => true,
            },
            Place::Product => match place {
                Place::Sum | Place::Product => false,
                Place::Factor => true,
            },
            Place::Factor => false,
        }
    }
}
