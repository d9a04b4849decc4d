// The two frame formats of GB/T 43671-2024: their limits, their identifier fields, the flags of
// their pieces, and the refusals that all calls share.
#![tactic(auto)]

ghost use Rattle.std.specs.Prelude.{◌≡◌};
ghost use Rattle.format.specs.Formats.{packet_limit, piece_size, header_size, number_range, flag_bits, own, numbered, packet_start, format_of, in_range};
ghost use Rattle.format.specs.Refusals.{number};
ghost use Rattle.format.specs.Numbers.{format_number, Reads};
ghost use Rattle.format.specs.Claims.{OneNumber, OneMeaning};
ghost use Rattle.format.specs.Bounds.{FormatBounds};

// A number that is none of a format's, a flag's or a refusal's.
#[derive(Clone, Copy, Debug, PartialEq, Eq)]
pub struct NoSuch(pub u8);

// The extended format, with 29-bit identifiers.
#[derive(Clone, Copy, Debug, PartialEq, Eq)]
pub struct Extended;

// The standard format, with 11-bit identifiers.
#[derive(Clone, Copy, Debug, PartialEq, Eq)]
pub struct Standard;

impl Extended {
    // Most bytes in a packet: 256 filled pieces.
    pub const PACKET_LIMIT: usize = 2048;

    // Packet bytes in a filled piece.
    pub const PIECE_SIZE: usize = 8;

    // Image bytes before the data bytes.
    pub const HEADER_SIZE: usize = 5;

    // Values that a piece's number takes.
    pub const NUMBER_RANGE: usize = 64;
}

impl Standard {
    pub const PACKET_LIMIT: usize = 1792;

    pub const PIECE_SIZE: usize = 7;

    pub const HEADER_SIZE: usize = 2;

    pub const NUMBER_RANGE: usize = 256;
}

// The numbers are those of a station's lent bytes and of the programs' requests.
#[derive(Clone, Copy, Debug, PartialEq, Eq)]
pub enum Format {
    Extended = 0,
    Standard = 1,
}

impl Format {
    // The one of the two that is this format's.
    fn own(self, extended: usize, standard: usize) -> usize
        ensures { result ≡ own self extended standard }
    {
        match self {
            Format::Extended => extended,
            Format::Standard => standard,
        }
    }

    pub fn packet_limit(self) -> usize
        ensures { result ≡ packet_limit self }
    {
        self.own(Extended::PACKET_LIMIT, Standard::PACKET_LIMIT)
    }

    pub fn piece_size(self) -> usize
        ensures { result ≡ piece_size self }
    {
        self.own(Extended::PIECE_SIZE, Standard::PIECE_SIZE)
    }

    pub fn header_size(self) -> usize
        ensures { result ≡ header_size self }
    {
        self.own(Extended::HEADER_SIZE, Standard::HEADER_SIZE)
    }

    pub fn number_range(self) -> usize
        ensures { result ≡ number_range self }
    {
        self.own(Extended::NUMBER_RANGE, Standard::NUMBER_RANGE)
    }

    // Whether the first data byte of such a piece is its number, and no packet byte.
    pub fn numbered(self, flag: Flag) -> bool
        ensures { result ≡ numbered self flag }
    {
        self == Format::Standard && flag != Flag::Single
    }

    // Where in the image of such a piece its packet bytes begin; they run to the image's end.
    pub fn packet_start(self, flag: Flag) -> usize
        ensures { result ≡ packet_start self flag }
    {
        if self.numbered(flag) {
            self.header_size() + 1
        } else {
            self.header_size()
        }
    }
}

impl TryFrom<u8> for Format {
    type Error = NoSuch;

    ghost try_from_gives = { Reads format_number };

    fn try_from(number: u8) -> Result<Format, NoSuch> {
        match number {
            0 => Ok(Format::Extended),
            1 => Ok(Format::Standard),
            _ => Err(NoSuch(number)),
        }
    }
}

// The identifier's fields, but for the flag and the number, which belong to a piece.
#[derive(Clone, Copy, Debug, PartialEq, Eq)]
pub enum Fields {
    Extended {
        priority: u8,
        source: u8,
        group: u8,
        destination: u8,
        function: u8,
    },
    Standard {
        priority: u8,
        address: u8,
        // Who sent the frame: 0 the master, 1 a slave.
        side: u8,
    },
}

impl Fields {
    pub fn format(self) -> Format
        ensures { result ≡ format_of self }
    {
        match self {
            Fields::Extended { .. } => Format::Extended,
            Fields::Standard { .. } => Format::Standard,
        }
    }

    #[tactic(auto, unfolding(crate::specs::Formats::in_range, crate::specs::Tests::all_true, crate::specs::Tests::all_after))]
    pub fn in_range(self) -> bool
        ensures { result ≡ in_range self }
    {
        match self {
            Fields::Extended {
                priority,
                source,
                group,
                destination,
                function,
            } => priority <= 3 && source <= 63 && group <= 3 && destination <= 63 && function <= 31,
            Fields::Standard {
                priority,
                address,
                side,
            } => priority <= 3 && address <= 63 && side <= 1,
        }
    }
}

// What piece of its packet a frame is, with the two bits of its flag in an image.
#[derive(Clone, Copy, Debug, PartialEq, Eq)]
pub enum Flag {
    Middle = 0,
    Start = 1,
    End = 2,
    Single = 3,
}

impl Flag {
    // The two bits of the flag in an image.
    pub fn bits(self) -> u8
        ensures { result ≡ flag_bits self }
    {
        self as u8
    }
}

impl TryFrom<u8> for Flag {
    type Error = NoSuch;

    ghost try_from_gives = { Reads flag_bits };

    fn try_from(bits: u8) -> Result<Flag, NoSuch> {
        match bits {
            0 => Ok(Flag::Middle),
            1 => Ok(Flag::Start),
            2 => Ok(Flag::End),
            3 => Ok(Flag::Single),
            _ => Err(NoSuch(bits)),
        }
    }
}

// Why a call refused; the documents' name for each number. The numbers have gaps.
#[derive(Clone, Copy, Debug, PartialEq, Eq)]
pub enum Refusal {
    Length = 1,
    Form = 2,
    Remote = 3,
    Count = 4,
    Piece = 5,
    Orphan = 6,
    Step = 7,
    Long = 8,
    Field = 9,
    Size = 10,
    Index = 11,
    Room = 12,
    Store = 13,
    Taken = 14,
    Full = 15,
    Closed = 16,
    NoPacket = 17,
    Busy = 18,
    Idle = 19,
    NotAwaited = 20,
    State = 21,
    Surplus = 25,
}

impl TryFrom<u8> for Refusal {
    type Error = NoSuch;

    ghost try_from_gives = { Reads number };

    fn try_from(number: u8) -> Result<Refusal, NoSuch> {
        match number {
            1 => Ok(Refusal::Length),
            2 => Ok(Refusal::Form),
            3 => Ok(Refusal::Remote),
            4 => Ok(Refusal::Count),
            5 => Ok(Refusal::Piece),
            6 => Ok(Refusal::Orphan),
            7 => Ok(Refusal::Step),
            8 => Ok(Refusal::Long),
            9 => Ok(Refusal::Field),
            10 => Ok(Refusal::Size),
            11 => Ok(Refusal::Index),
            12 => Ok(Refusal::Room),
            13 => Ok(Refusal::Store),
            14 => Ok(Refusal::Taken),
            15 => Ok(Refusal::Full),
            16 => Ok(Refusal::Closed),
            17 => Ok(Refusal::NoPacket),
            18 => Ok(Refusal::Busy),
            19 => Ok(Refusal::Idle),
            20 => Ok(Refusal::NotAwaited),
            21 => Ok(Refusal::State),
            25 => Ok(Refusal::Surplus),
            _ => Err(NoSuch(number)),
        }
    }
}

impl Refusal {
    pub fn number(self) -> u8
        ensures { result ≡ number self }
    {
        self as u8
    }
}

// The claims of this crate. It does nothing: its contract ties each claim to its proof.
pub fn promised()
    ensures one_number { OneNumber }
    ensures one_meaning { OneMeaning }
    ensures format_bounds { FormatBounds }
{}
