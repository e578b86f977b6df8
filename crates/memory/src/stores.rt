// Stores: what the operated elements leave in the window, once all are tested.
ghost use Rattle.std.specs.Prelude.{◌≡◌, ◌<◌, length, slice_index};
ghost use Rattle.numbers.specs.Bits.{bit};
ghost use Rattle.numbers.specs.Rising.{rising};
ghost use Rattle.memory.specs.Works.{size_of};
ghost use Rattle.memory.specs.Window.{put_at};
ghost use Rattle.memory.specs.Working.{Within, AllWithin};
ghost use Rattle.memory.specs.Move.{store_step};

use crate::access::Access;
use numbers::bits;
use state::Element;

impl Access {
    // Stores one element: its own four or eight bytes of the window are lent on.
    fn put(self, window: &mut [u8], offset: usize, v: u64)
        requires { Within (size_of self.quadword) (length window.old) offset }
        ensures { window.new ≡ put_at (size_of self.quadword) window.old offset v }
    {
        if self.quadword {
            let end = offset + 8;
            crate::window::put_quadword(&mut window[offset..end], v);
            return;
        }
        let end = offset + 4;
        crate::window::put_longword(&mut window[offset..end], v);
    }

    // Stores the elements, in rising order.
    pub(crate) fn store(self, window: &mut [u8], elements: &[u64; 1024], addresses: &[u32; 64])
        requires { AllWithin (size_of self.quadword) (length window.old) (bit self.which) (λ k. slice_index addresses.now k) 64 }
        ensures { window.new ≡ rising (store_step self.quadword self.vc.0 (bit self.which) (λ k. slice_index addresses.now k) elements.now) 64 window.old }
    {
        for i in bits::ones_of(self.which) {
            let v = elements[state::place(self.vc, Element(i))];
            self.put(&mut *window, addresses[i] as usize, v);
        }
    }
}
