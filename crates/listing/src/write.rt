// Writing bytes, words and numbers into an output, as far as there is room.
ghost use Rattle.std.specs.Prelude.{◌≡◌, [], ◌∷◌};
ghost use Rattle.listing.specs.Decimal.{decimal};
ghost use Rattle.listing.specs.Input.{blank};

use itoa::Buffer;

// An output, and how many bytes of it are written.
#[derive(Drop)]
pub(crate) struct Output<'a> {
    bytes: &'a mut [u8],
    end: usize,
}

impl<'a> Output<'a> {
    ghost use Rattle.listing.specs.inner.Writing.{Puts};

    // An output of which nothing is written.
    pub(crate) fn new(bytes: &'a mut [u8]) -> Output<'a>
        ensures same_reference { result.bytes.ghost_name ≡ bytes.entry.ghost_name }
        ensures same_bytes { result.bytes.now ≡ bytes.old }
        ensures start { result.end ≡ 0 }
    {
        Output { bytes, end: 0 }
    }

    // How many bytes are written.
    pub(crate) fn len(&self) -> usize
        ensures { result ≡ self.now.end }
    {
        self.end
    }

    // Writes a byte where there is room.
    pub(crate) fn put(&mut self, b: u8)
        ensures { Puts self.old (b ∷ []) self.new }
    {
        if self.end < self.bytes.len() {
            self.bytes[self.end] = b;
            self.end += 1;
        }
    }

    // Writes a word.
    pub(crate) fn put_word(&mut self, word: &[u8])
        ensures { Puts self.old word.now self.new }
    {
        for &b in word {
            self.put(b);
        }
    }

    // Writes a number in base ten.
    #[tactic(auto, using(crate::proofs::DecimalLaws::decimal_same))]
    pub(crate) fn put_decimal(&mut self, n: usize)
        ensures { Puts self.old (decimal n) self.new }
    {
        let mut digits = Buffer::new();
        self.put_word(digits.format(n).as_bytes());
    }

    // Writes a blank and a number.
    pub(crate) fn put_field(&mut self, n: usize)
        ensures { Puts self.old (blank ∷ decimal n) self.new }
    {
        self.put(b' ');
        self.put_decimal(n);
    }
}
