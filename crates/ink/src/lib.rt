// Text laid on a page, byte by byte: a page shows the bytes of the text from an offset on.
// The text is never held as a whole; a page keeps what falls on it.
#![tactic(auto)]

ghost use Rattle.std.specs.Prelude.{◌≡◌, [], ◌∷◌, ◌<◌};
ghost use Rattle.model.specs.Catalog.{decimal_before, decimal, hex_digit, hex_byte, space'};
ghost use Rattle.ink.specs.Ink.{sheet, Prints};

const SPACE: u8 = b' ';

// Bytes of the text that are still to be skipped, and bytes of the page that are written.
// The page stays beside the ink: as a field, each method would have to promise that it is still the same page.
#[derive(Clone, Copy)]
pub struct Ink {
    pub skip: usize,
    pub at: usize,
}

impl Ink {
    // Skips the byte, lays it on the page, or drops it past the page's end.
    #[tactic(auto, using(crate::proofs::InkLaws::byte_skipped, crate::proofs::InkLaws::byte_laid, crate::proofs::InkLaws::byte_past))]
    pub fn byte(&mut self, page: &mut [u8], byte: u8)
        ensures { Prints (byte ∷ []) (sheet self.old page.old) (sheet self.new page.new) }
    {
        if 0 < self.skip {
            self.skip -= 1;
        } else if self.at < page.len() {
            page[self.at] = byte;
            self.at += 1;
        }
    }

    // The bytes of a slice.
    pub fn run(&mut self, page: &mut [u8], bytes: &[u8])
        ensures { Prints bytes.now (sheet self.old page.old) (sheet self.new page.new) }
    {
        for byte in bytes {
            self.byte(page, *byte);
        }
    }

    // A number in decimal, the last `places` digits at most.
    // Digits by hand: what a `Display` writes goes to a writer, and the clauses say what is on the page.
    #[tactic(auto, using(crate::proofs::TextLaws::number_none, crate::proofs::TextLaws::number_digit), unfolding(crate::specs::Ink::emit))]
    pub fn number(&mut self, page: &mut [u8], places: usize, x: usize)
        ensures { Prints (decimal_before places x []) (sheet self.old page.old) (sheet self.new page.new) }
    {
        if places == 0 {
            return;
        }
        if x < 10 {
            self.byte(page, b'0' + x as u8);
            return;
        }
        self.number(page, places - 1, x / 10);
        self.byte(page, b'0' + (x % 10) as u8);
    }

    // A space and a number in decimal: no number of a listing has more than eight digits.
    #[tactic(auto, unfolding(crate::specs::Ink::emit))]
    pub fn decimal(&mut self, page: &mut [u8], x: usize)
        ensures { Prints (space' ∷ decimal x) (sheet self.old page.old) (sheet self.new page.new) }
    {
        self.byte(page, SPACE);
        self.number(page, 8, x);
    }

    // A byte in two hex digits.
    #[tactic(auto, using(crate::proofs::InkLaws::emit_append), unfolding(crate::specs::Ink::emit))]
    pub fn hex_byte(&mut self, page: &mut [u8], x: u8)
        ensures { Prints (hex_byte x) (sheet self.old page.old) (sheet self.new page.new) }
    {
        self.byte(page, hex_digit(x / 16));
        self.byte(page, hex_digit(x % 16));
    }
}

#[tactic(auto, using(crate::proofs::TextLaws::hex_low, crate::proofs::TextLaws::hex_high))]
pub fn hex_digit(x: u8) -> u8
    requires { x < 16 }
    ensures { result ≡ hex_digit x }
{
    match x {
        0..=9 => b'0' + x,
        _ => b'A' + (x - 10),
    }
}
