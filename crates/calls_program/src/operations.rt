// The operations of compare/PROTOCOL.md, and which requests are requests: the number of argument
// bytes that each has, and what its table rules out.
ghost use Rattle.std.specs.Prelude.{◌≡◌};
ghost use Rattle.format.specs.Numbers.{Reads};
ghost use Rattle.calls_program.specs.Operations.{number_of, args_fit, station_args, other_args, is_request};

use crate::request::{byte, number};
use format::{NoSuch, Refusal};

#[derive(Clone, Copy, Debug, PartialEq, Eq)]
pub enum Operation {
    New = 1,
    Open = 2,
    Close = 3,
    Receive = 4,
    Read = 5,
    Count = 6,
    Piece = 7,
    Slot = 8,
    Lend = 9,
    Store = 10,
    Fill = 11,
    Front = 12,
    Judge = 13,
    Number = 14,
    Filter = 15,
    Row = 16,
    Record = 17,
    Line = 18,
    Listing = 19,
    Listed = 20,
    List = 21,
    End = 22,
    Master = 23,
    Exchange = 24,
    Start = 25,
    Reply = 26,
    Timeout = 27,
    Watch = 28,
    Heard = 29,
    Check = 30,
}

// How many bytes the program holds of which a part is lent.
pub const BYTES: usize = 40000;

// The most identifiers of one request.
const IDENTIFIERS: usize = 32768;

// The longest output of a listing's request.
const ROOM: usize = 4096;

impl TryFrom<u8> for Operation {
    type Error = NoSuch;

    ghost try_from_gives = { Reads number_of };

    fn try_from(byte: u8) -> Result<Self, NoSuch> {
        match byte {
            1 => Ok(Operation::New),
            2 => Ok(Operation::Open),
            3 => Ok(Operation::Close),
            4 => Ok(Operation::Receive),
            5 => Ok(Operation::Read),
            6 => Ok(Operation::Count),
            7 => Ok(Operation::Piece),
            8 => Ok(Operation::Slot),
            9 => Ok(Operation::Lend),
            10 => Ok(Operation::Store),
            11 => Ok(Operation::Fill),
            12 => Ok(Operation::Front),
            13 => Ok(Operation::Judge),
            14 => Ok(Operation::Number),
            15 => Ok(Operation::Filter),
            16 => Ok(Operation::Row),
            17 => Ok(Operation::Record),
            18 => Ok(Operation::Line),
            19 => Ok(Operation::Listing),
            20 => Ok(Operation::Listed),
            21 => Ok(Operation::List),
            22 => Ok(Operation::End),
            23 => Ok(Operation::Master),
            24 => Ok(Operation::Exchange),
            25 => Ok(Operation::Start),
            26 => Ok(Operation::Reply),
            27 => Ok(Operation::Timeout),
            28 => Ok(Operation::Watch),
            29 => Ok(Operation::Heard),
            30 => Ok(Operation::Check),
            _ => Err(NoSuch(byte)),
        }
    }
}

impl Operation {
    // Whether a request of the operation may have so many argument bytes.
    #[tactic(auto, unfolding(crate::specs::Operations::args_fit, crate::specs::Operations::ruled, crate::specs::Operations::among))]
    fn fits(self, size: usize) -> bool
        ensures { result ≡ args_fit (number_of self) size }
    {
        match self {
            Self::Listing | Self::Master | Self::Timeout => size == 0,
            Self::New | Self::Close | Self::Read | Self::Front | Self::Number => size == 1,
            Self::Lend | Self::Fill | Self::Start => size == 2,
            Self::Reply => size == 3,
            Self::Store | Self::Watch | Self::Check => size == 4,
            Self::Exchange | Self::Heard => size == 5,
            Self::Open => size == 7,
            Self::Filter | Self::Listed => size == 8,
            Self::Count => size == 9,
            Self::Slot => size == 11,
            Self::Row => size == 12,
            Self::Line => size == 30,
            Self::Receive | Self::Judge => size >= 1,
            Self::List | Self::End => size >= 2,
            Self::Piece => size >= 9,
            Self::Record => true,
        }
    }

    // Whether the arguments are within what the tables say: formats, slots, kinds, sizes.
    #[tactic(auto, using(crate::proofs::Named::refusal_is_read), unfolding(crate::specs::Operations::station_args, crate::specs::Operations::other_args, crate::specs::Operations::ruled, crate::specs::Operations::among, format::specs::Tests::all_true, format::specs::Tests::all_after))]
    fn admits(self, args: &[u8]) -> bool
        ensures { result ≡ station_args (number_of self) args.now (other_args (number_of self) args.now) }
    {
        match self {
            Self::New | Self::Count | Self::Front => byte(args, 0) <= 1,
            Self::Piece | Self::Judge => byte(args, 0) <= 1,
            Self::Open => byte(args, 1) <= 1,
            Self::Slot => byte(args, 0) <= 15 && byte(args, 1) <= 3 && byte(args, 5) <= 1,
            Self::Lend => number(args, 0) <= BYTES,
            Self::Store => number(args, 0) + number(args, 2) <= BYTES,
            Self::Number => Refusal::try_from(byte(args, 0)).is_ok(),
            Self::Filter => number(args, 6) <= IDENTIFIERS,
            Self::Row => number(args, 10) <= IDENTIFIERS,
            Self::Line => byte(args, 1) <= 4 && byte(args, 11) <= 1,
            Self::List | Self::End => number(args, 0) <= ROOM,
            Self::Exchange => byte(args, 0) <= 63 && byte(args, 2) <= 3,
            Self::Start => (1..=3).contains(&byte(args, 0)),
            Self::Close | Self::Receive | Self::Read | Self::Fill | Self::Record => true,
            Self::Listing | Self::Listed | Self::Master | Self::Reply | Self::Timeout => true,
            Self::Watch | Self::Heard | Self::Check => true,
        }
    }

    // Whether they make a request of the operation.
    #[tactic(auto, unfolding(crate::specs::Operations::is_request, format::specs::Tests::all_true, format::specs::Tests::all_after))]
    pub fn takes(self, args: &[u8]) -> bool
        ensures { result ≡ is_request (number_of self) args.now }
    {
        self.fits(args.len()) && self.admits(args)
    }
}
