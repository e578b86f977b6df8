// What a memory instruction asks for: which elements are moved, between which register and which places of the window. Here and below the window
// stands at 0.
ghost use Rattle.std.specs.Prelude.{◌≡◌, ◌^◌, ◌<◌, ◌≤◌};
ghost use Rattle.memory.specs.Works.{size_of};

use state::Register;

// How the addresses of the elements are said: by offsets from Vb or by a stride, from a base.
#[derive(Clone, Copy)]
pub(crate) struct Addressing {
    pub offsets: bool,
    pub base: u32,
    pub stride: u32,
    pub vb: Register,
    ghost in_range: { vb.0 < 16 },
}

// A load, a store, a gather or a scatter.
#[derive(Clone, Copy)]
pub(crate) struct Access {
    pub addressing: Addressing,
    // From Vc to the window; else the other way.
    pub to_window: bool,
    pub quadword: bool,
    pub vc: Register,
    // The elements that are moved, as the ones of a number: all are below n.
    pub which: u64,
    pub n: usize,
    // The length of the window.
    pub bytes: u64,
    ghost in_range: { vc.0 < 16 },
    ghost short: { n ≤ 64 },
    ghost below: { which < 2 ^ n },
    ghost fits: { bytes ≤ 2 ^ 32 },
}

impl Access {
    // How many bytes an element moves.
    pub(crate) fn size(self) -> u32
        ensures { result ≡ size_of self.quadword }
    {
        if self.quadword { 8 } else { 4 }
    }
}
