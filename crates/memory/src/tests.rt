// The tests of the operated elements. An address is worked out when it is tested, and kept for the move.
ghost use Rattle.std.specs.Prelude.{◌≡◌, ℕ, ◌+◌, ◌-◌, ◌<◌, true, Ok, slice_index};
ghost use Rattle.memory.specs.Works.{size_of};
ghost use Rattle.memory.specs.Address.{saying};
ghost use Rattle.memory.specs.Working.{address_in, AddressesBelow, test_at, tests_at, Searched};

use crate::access::Access;
use numbers::bits;
use state::Element;
use state::answer::Refusal;

impl Access {
    // The test of element i: alignment, then the window.
    #[tactic(auto, unfolding(crate::specs::Working::test_at))]
    fn test_one(self, i: u64, address: u32) -> Result<(), Refusal>
        ensures { result ≡ saying i (test_at (size_of self.quadword) self.bytes address) }
    {
        let size = self.size();
        let straight = address % size == 0;
        let inside = address as u64 + size as u64 <= self.bytes;
        if !straight {
            return Err(Refusal::Misaligned(i));
        }
        if !inside {
            return Err(Refusal::OutsideWindow(i));
        }
        Ok(())
    }

    // Each element by itself, the lowest first. The address of each one that is looked at is worked out and kept, and of no other.
    fn test_each(self, addresses: &mut [u32; 64], elements: &[u64; 1024]) -> Result<(), Refusal>
        ensures { Searched (size_of self.quadword) self.bytes self.which (address_in self.addressing elements.now) result addresses.new }
    {
        for i in bits::ones_of(self.which) {
            let address = self.addressing.of_element(elements, Element(i));
            addresses[i] = address;
            self.test_one(i as u64, address)?;
        }
        Ok(())
    }

    // How many places of the window an element may begin at. The window may be too short for one.
    fn room(self) -> u32
        ensures { result ≡ self.bytes + 1 - size_of self.quadword }
    {
        (self.bytes + 1).saturating_sub(self.size() as u64) as u32
    }

    // An element is fine: by tests of 32 bits and no branch, so that the machine does several at once.
    #[tactic(auto, unfolding(crate::specs::Working::test_at))]
    fn is_fine(self, address: u32) -> bool
        ensures { result ≡ true → test_at (size_of self.quadword) self.bytes address ≡ Ok tt }
    {
        (address % self.size() == 0) & (address < self.room())
    }

    // All elements below n are fine.
    fn all_fine(self, addresses: &[u32; 64]) -> bool
        ensures { result ≡ true → (i : ℕ) → i < self.n → test_at (size_of self.quadword) self.bytes (slice_index addresses.now i) ≡ Ok tt }
    {
        let mut all = true;
        for &address in &addresses[..self.n] {
            all &= self.is_fine(address);
        }
        all
    }

    // All elements below n are operated on, and fine; their addresses are kept. Where some are not operated on, none is looked at here.
    fn all_at_once(self, addresses: &mut [u32; 64], elements: &[u64; 1024]) -> bool
        ensures { result ≡ true → AddressesBelow (address_in self.addressing elements.now) self.n addresses.new × ((i : ℕ) → i < self.n → tests_at (size_of self.quadword) self.bytes (address_in self.addressing elements.now) i ≡ Ok tt) }
    {
        if self.which != bits::low_bits(u64::MAX, self.n as u64) {
            return false;
        }
        self.addressing.of_all(&mut *addresses, elements, self.n);
        self.all_fine(addresses)
    }

    // Refuses the lowest bad element. As a rule all below n are operated on and fine, which is told fast; else each that is operated on is looked
    // at, and no other.
    pub(crate) fn test(
        self,
        addresses: &mut [u32; 64],
        elements: &[u64; 1024],
    ) -> Result<(), Refusal>
        ensures { Searched (size_of self.quadword) self.bytes self.which (address_in self.addressing elements.now) result addresses.new }
    {
        if self.all_at_once(&mut *addresses, elements) {
            return Ok(());
        }
        self.test_each(addresses, elements)
    }
}
