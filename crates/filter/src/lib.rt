// Acceptance filters over ID.28 to ID.13 of the extended identifier: bytes 1 and 2 of an extended
// image, that is priority (2 bits), source (6), group (2) and destination (6).
#![tactic(auto)]

ghost use Rattle.std.specs.Prelude.{◌≡◌};
ghost use Rattle.filter.specs.Filters.{accepts, either_accepts, row_pair};
ghost use Rattle.filter.specs.Claims.{InImage};
ghost use Rattle.filter.specs.Examples.{FilterExamples};

// A mask bit that is 1 lets any identifier bit pass.
#[derive(Clone, Copy, Debug, PartialEq, Eq)]
pub struct Filter {
    pub code: u16,
    pub mask: u16,
}

#[derive(Clone, Copy, Debug, PartialEq, Eq)]
pub struct Pair {
    pub first: Filter,
    pub second: Filter,
}

impl Filter {
    // Whether the filter accepts ID.28 to ID.13, ID.13 being the lowest bit. Where a bit differs
    // from the code's, the mask has to have it.
    pub fn accepts(self, id: u16) -> bool
        ensures { result ≡ accepts self id }
    {
        let Filter { code, mask } = self;
        ((id ^ code) | mask) == mask
    }
}

impl Pair {
    // Whether either filter accepts.
    #[tactic(auto, unfolding(crate::specs::Filters::either_accepts))]
    pub fn accepts(self, id: u16) -> bool
        ensures { result ≡ either_accepts self id }
    {
        self.first.accepts(id) || self.second.accepts(id)
    }

    // The pair of a row of Table A.1: code 0, mask 0, code 1, mask 1, code 2, mask 2, code 3, mask 3.
    // A call by name and no From, as docs/CALLS.md names it, and eight bytes alone tell no order.
    #[tactic(auto, unfolding(crate::specs::Filters::row_pair))]
    pub fn from_row(row: [u8; 8]) -> Pair
        ensures { result ≡ row_pair row }
    {
        let [code0, mask0, code1, mask1, code2, mask2, code3, mask3] = row;
        Pair {
            first: Filter {
                code: u16::from_be_bytes([code0, code1]),
                mask: u16::from_be_bytes([mask0, mask1]),
            },
            second: Filter {
                code: u16::from_be_bytes([code2, code3]),
                mask: u16::from_be_bytes([mask2, mask3]),
            },
        }
    }
}

// The claims of this crate. It does nothing: its contract ties each claim to its proof.
pub fn promised()
    ensures in_image { InImage }
    ensures filter_examples { FilterExamples }
{}
