// Loads: what the operated elements receive of the window, once all are tested.
ghost use Rattle.std.specs.Prelude.{◌≡◌, ◌+◌, ◌<◌, ◌≤◌, length, set, slice_index, slice_set};
ghost use Rattle.numbers.specs.Bits.{bit};
ghost use Rattle.numbers.specs.Rising.{rising};
ghost use Rattle.state.specs.State.{place_of};
ghost use Rattle.state.specs.Elements.{at};
ghost use Rattle.memory.specs.Works.{size_of};
ghost use Rattle.memory.specs.Window.{number_at};
ghost use Rattle.memory.specs.Working.{AllWithin};
ghost use Rattle.memory.specs.Move.{received, load_step};

use crate::access::Access;
use numbers::bits;
use state::Element;

impl Access {
    // What an element receives of the window.
    fn fetched(self, window: &[u8], offset: usize, old: u64) -> u64
        requires { offset + size_of self.quadword ≤ length window.now }
        ensures { result ≡ received self.quadword old (number_at (size_of self.quadword) window.now offset) }
    {
        if self.quadword {
            let end = offset + 8;
            return numbers::bytes::quadword(&window[offset..end]);
        }
        let end = offset + 4;
        numbers::halves::with_low(old, numbers::bytes::longword(&window[offset..end]))
    }

    // Loads the elements, in rising order.
    pub(crate) fn load(self, elements: &mut [u64; 1024], window: &[u8], addresses: &[u32; 64])
        requires { AllWithin (size_of self.quadword) (length window.now) (bit self.which) (λ k. slice_index addresses.now k) 64 }
        ensures { elements.new ≡ rising (load_step self.quadword self.vc.0 (bit self.which) (λ k. slice_index addresses.now k) window.now) 64 elements.old }
    {
        for i in bits::ones_of(self.which) {
            let place = state::place(self.vc, Element(i));
            elements[place] = self.fetched(window, addresses[i] as usize, elements[place]);
        }
    }
}
