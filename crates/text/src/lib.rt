// Text on a page, which is a lent buffer and the place in it that comes next: each method puts its text at
// that place and moves it past the text; the bytes before and past the text stay.
#![tactic(auto)]

ghost use Rattle.std.specs.Prelude.{◌≡◌, [], ◌∷◌, ◌+◌, ◌<◌};
ghost use Rattle.text.specs.Text.{decimal, signed_decimal, RoomFor, Written};

#[derive(Drop)]
pub struct Page<'a> {
    pub out: &'a mut [u8],
    pub at: usize,
}

fn digit_char(d: u64) -> u8
    requires { d < 10 }
    ensures { result ≡ 48 + d }
{
    (48 + d) as u8
}

impl<'a> Page<'a> {
    // One byte.
    pub fn byte(&mut self, b: u8)
        requires { RoomFor self.old (b ∷ []) }
        ensures { Written self.old (b ∷ []) self.new }
    {
        self.out[self.at] = b;
        self.at += 1;
    }

    // A number in decimal.
    pub fn decimal(&mut self, n: u64)
        requires { RoomFor self.old (decimal n) }
        ensures { Written self.old (decimal n) self.new }
    {
        if n < 10 {
            self.byte(digit_char(n));
            return;
        }
        self.decimal(n / 10);
        self.byte(digit_char(n % 10));
    }

    // A number with a sign in decimal.
    pub fn signed(&mut self, z: i64)
        requires { RoomFor self.old (signed_decimal z) }
        ensures { Written self.old (signed_decimal z) self.new }
    {
        let n = z.unsigned_abs();
        if z < 0 {
            self.byte(b'-');
            self.decimal(n);
            return;
        }
        self.decimal(n);
    }

    // A space and a number with a sign in decimal: an item of a line after the first.
    pub fn item(&mut self, z: i64)
        requires { RoomFor self.old (32 ∷ signed_decimal z) }
        ensures { Written self.old (32 ∷ signed_decimal z) self.new }
    {
        self.byte(b' ');
        self.signed(z);
    }

    // A space and a natural number in decimal.
    pub fn natural_item(&mut self, n: u64)
        requires { RoomFor self.old (32 ∷ decimal n) }
        ensures { Written self.old (32 ∷ decimal n) self.new }
    {
        self.byte(b' ');
        self.decimal(n);
    }

    // The bytes of s.
    pub fn bytes(&mut self, s: &[u8])
        requires { RoomFor self.old s.now }
        ensures { Written self.old s.now self.new }
    {
        let end = self.at + s.len();
        self.out[self.at..end].copy_from_slice(s);
        self.at = end;
    }
}
