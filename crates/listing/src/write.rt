// Writing into lent bytes, one text after another.
ghost use Rattle.std.specs.Prelude.{◌≡◌, ◌+◌, ◌<◌, ◌≤◌, length};
ghost use Rattle.listing.specs.Text.{digit_of, digits, width_of, line as line_of, element_line, element_text, element_lines, control_lines};
ghost use Rattle.listing.specs.Working.{Writes};

use state::{Control, Element, Register};

// The lent bytes, and the place where the next text goes.
#[derive(Drop)]
pub(crate) struct Writer<'a> {
    text: &'a mut [u8],
    pub(crate) at: usize,
}

impl<'a> Writer<'a> {
    // Begins at the first of the bytes.
    pub(crate) fn new(text: &'a mut [u8]) -> Writer<'a>
        ensures same_reference { result.text.ghost_name ≡ text.entry.ghost_name }
        ensures bytes { result.text.now ≡ text.old }
        ensures place { result.at ≡ 0 }
    {
        Writer { text, at: 0 }
    }

    // Copies bytes.
    fn push(&mut self, bytes: &[u8])
        requires { self.old.at + length bytes.now ≤ length self.old.text.now }
        ensures { Writes self.old self.new bytes.now }
    {
        let end = self.at + bytes.len();
        self.text[self.at..end].copy_from_slice(bytes);
        self.at = end;
    }

    // The last n digits of x, from the lowest up.
    pub(crate) fn number(&mut self, base: u64, n: usize, x: u64)
        requires { (1 < base) × (base ≤ 16) × (self.old.at + n ≤ length self.old.text.now) }
        ensures { Writes self.old self.new (digits base n x) × (self.new.at ≡ self.old.at + n) }
    {
        let mut rest = x;
        for left in (0..n).rev() {
            self.text[self.at + left] = digit(rest % base);
            rest /= base;
        }
        self.at += n;
    }

    // A line: its start, n digits, a newline.
    pub(crate) fn line(&mut self, start: &[u8], base: u64, n: usize, x: u64)
        requires { (1 < base) × (base ≤ 16) × (self.old.at + length start.now + n < length self.old.text.now) }
        ensures { Writes self.old self.new (line_of start.now base n x) × (self.new.at ≡ self.old.at + length start.now + n + 1) }
    {
        self.push(start);
        self.number(base, n, x);
        self.push(b"\n");
    }

    // The line of an element.
    fn element_line(&mut self, register: Register, element: Element, contents: u64)
        requires { self.old.at + 25 ≤ length self.old.text.now }
        ensures { Writes self.old self.new (element_line register.0 element.0 contents) }
    {
        self.push(b"V");
        self.number(10, 2, register.0 as u64);
        self.push(b"[");
        self.number(10, 2, element.0 as u64);
        self.line(b"] ", 16, 16, contents);
    }

    // The line of record k, if it has one.
    fn element_text(&mut self, k: usize, contents: u64)
        requires { (k < 1024) × (self.old.at + 25 ≤ length self.old.text.now) }
        ensures { Writes self.old self.new (element_text k contents) × (self.new.at ≤ self.old.at + 25) }
    {
        if contents != 0 {
            self.element_line(Register(k / 64), Element(k % 64), contents);
        }
    }

    // The lines of the elements.
    pub(crate) fn element_lines(&mut self, elements: &[u64; 1024])
        requires { self.old.at + 25600 ≤ length self.old.text.now }
        ensures { Writes self.old self.new (element_lines 1024 elements.now) × (self.new.at ≤ self.old.at + 25600) }
    {
        for (k, contents) in elements.iter().enumerate() {
            self.element_text(k, *contents);
        }
    }

    // The lines of the control registers.
    pub(crate) fn control_lines(&mut self, control: Control)
        requires { (control.vlr ≤ 64) × (control.vcr ≤ 64) × (self.old.at + 63 ≤ length self.old.text.now) }
        ensures { Writes self.old self.new (control_lines control) }
    {
        self.line(b"VLR ", 10, width(control.vlr), control.vlr);
        self.line(b"VMR ", 16, 16, control.vmr);
        self.line(b"VCR ", 10, width(control.vcr), control.vcr);
        self.line(b"VAER ", 16, 8, control.vaer);
        self.line(b"VPSR ", 16, 8, control.vpsr);
    }
}

// A digit, capitals from 10 on.
#[tactic(auto, unfolding(crate::specs::Text::digit_of))]
fn digit(d: u64) -> u8
    requires { d < 16 }
    ensures { result ≡ digit_of d }
{
    if d < 10 {
        return (48 + d) as u8;
    }
    (55 + d) as u8
}

// How many digits plain decimal takes: 20 hold every number of 64 bits.
#[tactic(auto, using(crate::proofs::Width::width_log, crate::proofs::Width::width_zero))]
pub(crate) fn width(x: u64) -> usize
    ensures { result ≡ width_of x }
{
    x.checked_ilog10().map_or(1, |power| power as usize + 1)
}
