// What a memory instruction moves, once all operated elements are tested.
ghost use Rattle.std.specs.Prelude.{◌≡◌, ◌<◌, length, slice_index};
ghost use Rattle.numbers.specs.Bits.{bit};
ghost use Rattle.memory.specs.Works.{size_of};
ghost use Rattle.memory.specs.Working.{AllWithin};
ghost use Rattle.memory.specs.Move.{moves_by};

use crate::access::Access;

impl Access {
    // Moves the elements, in rising order. A load marks them, all at once.
    pub(crate) fn carry_out(
        self,
        elements: &mut [u64; 1024],
        marks: &mut [u64; 16],
        window: &mut [u8],
        addresses: &[u32; 64],
    )
        requires { AllWithin (size_of self.quadword) (length window.old) (bit self.which) (λ k. slice_index addresses.now k) 64 }
        ensures { (elements.new, marks.new, window.new) ≡ moves_by self.to_window self.quadword self.vc.0 (bit self.which) (λ k. slice_index addresses.now k) 64 elements.old marks.old window.old }
    {
        if self.to_window {
            self.store(window, elements, addresses);
        } else {
            self.load(elements, window, addresses);
            state::marks::add(marks, self.vc, self.which);
        }
    }
}
