// A place in the caller's buffer, where the next bytes go. Whoever calls a method has seen to it that there is room.
ghost use Rattle.std.specs.Prelude.{◌≡◌, [], ◌∷◌, ◌<◌, ◌≤◌, ◌+◌, length};
ghost use Rattle.manual.specs.Text.{digits, padded, decimal};
ghost use Rattle.put.specs.Cursor.{HasRoom, Writes};

use super::{
    put_both, put_byte, put_bytes, put_count, put_decimal, put_hex, put_hex2, put_hex4, put_hex6,
    put_small,
};

#[derive(Drop)]
pub struct Cursor<'a> {
    pub out: &'a mut [u8],
    pub at: usize,
}

impl<'a> Cursor<'a> {
    pub fn new(out: &'a mut [u8], at: usize) -> Cursor<'a>
        ensures same { result.out.ghost_name ≡ out.entry.ghost_name }
        ensures starts { (result.out.now ≡ out.old) × (result.at ≡ at) }
    {
        Cursor { out, at }
    }

    pub fn byte(&mut self, b: u8)
        requires { HasRoom self.old 1 }
        ensures { Writes self.old self.new (b ∷ []) }
    {
        self.at = put_byte(&mut *self.out, self.at, b);
    }

    pub fn both(&mut self, a: u8, b: u8)
        requires { HasRoom self.old 2 }
        ensures { Writes self.old self.new (a ∷ b ∷ []) }
    {
        self.at = put_both(&mut *self.out, self.at, a, b);
    }

    pub fn bytes(&mut self, src: &[u8])
        requires { HasRoom self.old (length src.now) }
        ensures { Writes self.old self.new src.now }
    {
        self.at = put_bytes(&mut *self.out, self.at, src);
    }

    /// Two hexadecimal digits, four, and six.
    pub fn hex2(&mut self, n: u8)
        requires { HasRoom self.old 2 }
        ensures { Writes self.old self.new (padded 16 2 n) }
    {
        self.at = put_hex2(&mut *self.out, self.at, n);
    }

    pub fn hex4(&mut self, n: u16)
        requires { HasRoom self.old 4 }
        ensures { Writes self.old self.new (padded 16 4 n) }
    {
        self.at = put_hex4(&mut *self.out, self.at, n);
    }

    pub fn hex6(&mut self, n: u32)
        requires { HasRoom self.old 6 × (n < 16777216) }
        ensures { Writes self.old self.new (padded 16 6 n) }
    {
        self.at = put_hex6(&mut *self.out, self.at, n);
    }

    /// A number of 24 bits in hexadecimal, without leading zeros.
    pub fn hex(&mut self, n: u32)
        requires { HasRoom self.old 6 × (n < 16777216) }
        ensures { Writes self.old self.new (digits 16 8 n) × (self.new.at ≤ self.old.at + 6) }
    {
        self.at = put_hex(&mut *self.out, self.at, n);
    }

    /// A number below 100 in decimal, and one below 10,000, without leading zeros.
    pub fn small(&mut self, n: u8)
        requires { HasRoom self.old 2 × (n < 100) }
        ensures { Writes self.old self.new (decimal n) × (self.new.at ≤ self.old.at + 2) }
    {
        self.at = put_small(&mut *self.out, self.at, n);
    }

    pub fn decimal(&mut self, n: u16)
        requires { HasRoom self.old 4 × (n < 10000) }
        ensures { Writes self.old self.new (decimal n) × (self.new.at ≤ self.old.at + 4) }
    {
        self.at = put_decimal(&mut *self.out, self.at, n);
    }

    /// A number below 10,000,000 in decimal, without leading zeros.
    pub fn count(&mut self, n: u32)
        requires { HasRoom self.old 8 × (n < 10000000) }
        ensures { Writes self.old self.new (decimal n) × (self.new.at ≤ self.old.at + 8) }
    {
        self.at = put_count(&mut *self.out, self.at, n);
    }
}
