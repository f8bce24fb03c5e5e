// Text in a lent buffer, put piece by piece; what does not fit is left out.
#![tactic(auto)]

ghost use Rattle.std.specs.Prelude.{◌≡◌, ◌^◌, ◌≤◌, ◌<◌};
ghost use Rattle.text.specs.Text.{digit_of, digits_in, decimal_of, hex_of, pairs_of};
ghost use Rattle.text.specs.Puts.{Puts};

const DIGITS: [u8; 16] = *b"0123456789abcdef";

// The digit that stands for d.
fn digit(d: u32) -> u8
    requires { d < 16 }
    ensures { result ≡ digit_of d }
{
    DIGITS[d as usize]
}

// A lent buffer, and the length of the text put into it.
#[derive(Drop)]
pub struct Text<'a> {
    pub buffer: &'a mut [u8],
    pub length: usize,
}

impl<'a> Text<'a> {
    // Puts the bytes of `text`, as far as there is room.
    pub fn put(&mut self, text: &[u8])
        ensures { Puts text.now self.old self.new }
    {
        for c in text {
            if self.length < self.buffer.len() {
                self.buffer[self.length] = *c;
                self.length += 1;
            }
        }
    }

    // Puts v in the digits of a radix, of which it has at most 10. They are written from the last to the first.
    fn put_number(&mut self, v: u32, radix: u32)
        requires { (0 < radix) × (radix ≤ 16) × (v < radix ^ 10) }
        ensures { Puts (digits_in radix 10 v) self.old self.new }
    {
        let mut digits = [0u8; 10];
        let mut i: usize = 9;
        let mut rest = v;
        // No `for`: it ends where the number does, and the place is needed after it.
        while rest >= radix {
            digits[i] = digit(rest % radix);
            rest /= radix;
            i -= 1;
        }
        digits[i] = digit(rest);
        self.put(&digits[i..]);
    }

    // Puts v in decimal, without leading zeros.
    pub fn put_decimal(&mut self, v: u32)
        ensures { Puts (decimal_of v) self.old self.new }
    {
        self.put_number(v, 10);
    }

    // Puts v in lower-case hex, without leading zeros.
    pub fn put_hex(&mut self, v: u32)
        ensures { Puts (hex_of v) self.old self.new }
    {
        self.put_number(v, 16);
    }

    // Puts each byte as two digits of lower-case hex.
    pub fn put_pairs(&mut self, bytes: &[u8])
        ensures { Puts (pairs_of bytes.now) self.old self.new }
    {
        for byte in bytes {
            let b = u32::from(*byte);
            self.put(&[digit(b / 16), digit(b % 16)]);
        }
    }
}
