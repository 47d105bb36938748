// Text written into a slice that the caller lends, at a place that moves on: bytes, decimal numbers and fields.
#![tactic(auto)]

ghost use Rattle.std.specs.Prelude.{◌≡◌, [], ◌∷◌, ◌++◌, ◌+◌, ◌≤◌, ◌<◌, length, take};
ghost use Rattle.semantics.specs.Fields.{digit, number_text};
ghost use Rattle.print.specs.Wrote.{Wrote};
ghost use Rattle.print.specs.Texts.{Room, Puts};

// The items of a slice, at a place; the place behind them. One by one: a copy of slices asks the host for memmove, which the C interface does not;
// of what a `zip` of `iter_mut` writes a proof knows the length alone.
pub fn put_all<T: Copy>(out: &mut [T], at: usize, items: &[T]) -> usize
    requires { at + length items.now ≤ length out.old }
    ensures { Wrote out.old at items.now out.new result }
{
    for (i, &item) in items.iter().enumerate() {
        out[at + i] = item;
    }
    at + items.len()
}

// A lent slice, and the place up to which it is written.
#[derive(Drop)]
pub struct Text<'a> {
    pub out: &'a mut [u8],
    pub at: usize,
}

impl<'a> Text<'a> {
    // Before anything is written.
    pub fn new(out: &'a mut [u8]) -> Self
        ensures place { result.at ≡ 0 }
        ensures same { result.out.ghost_name ≡ out.entry.ghost_name }
        ensures bytes { result.out.now ≡ out.old }
    {
        Text { out, at: 0 }
    }

    // What is written, from the beginning of the slice on.
    pub fn written(&self) -> &[u8]
        requires { Room self.now 0 }
        ensures { result.now ≡ take self.now.at self.now.out.now }
    {
        &self.out[..self.at]
    }

    // One byte.
    pub fn put_byte(&mut self, b: u8)
        requires { Room self.old 1 }
        ensures { Puts self.old (b ∷ []) self.new }
    {
        self.out[self.at] = b;
        self.at += 1;
    }

    // The bytes of a slice.
    pub fn put_bytes(&mut self, bytes: &[u8])
        requires { Room self.old (length bytes.now) }
        ensures { Puts self.old bytes.now self.new }
    {
        self.at = put_all(self.out, self.at, bytes);
    }

    // A digit.
    fn put_digit(&mut self, d: u32)
        requires { Room self.old 1 × (d < 10) }
        ensures { Puts self.old (digit d ∷ []) self.new }
    {
        self.put_byte(b'0' + d as u8);
    }

    // A number in decimal, without a leading zero: the digits of a tenth of it, then the last.
    pub fn put_number(&mut self, n: u32)
        requires { Room self.old (length (number_text n)) }
        ensures { Puts self.old (number_text n) self.new }
    {
        if n < 10 {
            self.put_digit(n);
            return;
        }
        self.put_number(n / 10);
        self.put_digit(n % 10);
    }

    // A number, and the byte that ends its field.
    pub fn put_field(&mut self, n: u32, end: u8)
        requires { Room self.old (length (number_text n) + 1) }
        ensures { Puts self.old (number_text n ++ (end ∷ [])) self.new }
    {
        self.put_number(n);
        self.put_byte(end);
    }
}
