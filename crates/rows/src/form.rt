// What a row's form says: specs/Columns.antt has how its numbers are put together.
ghost use Rattle.std.specs.Prelude.{◌≡◌, ◌/◌, ◌%◌, eqb, not};

/// The form of a row in one number: its opcode, the kinds of its operands, the place of its SREG bit, its length, and the number of its
/// pair of kinds.
#[derive(Debug, Clone, Copy, PartialEq, Eq)]
pub struct Form {
    pub bits: u32,
}

impl Form {
    /// The opcode's code.
    pub fn code(self) -> u8
        ensures { result ≡ self.bits % 128 }
    {
        (self.bits % 128) as u8
    }

    /// The kind of the first operand, and that of the second.
    pub fn first(self) -> u8
        ensures { result ≡ self.bits / 128 % 32 }
    {
        (self.bits / 128 % 32) as u8
    }

    pub fn second(self) -> u8
        ensures { result ≡ self.bits / 4096 % 32 }
    {
        (self.bits / 4096 % 32) as u8
    }

    /// Where the word has the number of an SREG bit: 0 nowhere, 1 in bits 2 to 0, 2 in bits 6 to 4.
    pub fn sreg_place(self) -> u32
        ensures { result ≡ self.bits / 131072 % 4 }
    {
        self.bits / 131072 % 4
    }

    /// Whether the instruction has a second word.
    pub fn is_long(self) -> bool
        ensures { result ≡ not (eqb (self.bits / 524288 % 2) 0) }
    {
        self.bits / 524288 % 2 != 0
    }

    /// The number of the pair of kinds.
    pub fn pair(self) -> u32
        ensures { result ≡ self.bits / 1048576 }
    {
        self.bits / 1048576
    }
}
