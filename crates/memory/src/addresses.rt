// The addresses of the operated elements, worked out before anything is moved: so a gather has read all that it needs of Vb by then. Where all
// elements are operated on they are worked out at once, else (or if one of them is bad) one by one; of an element that is not operated on Vb is not read.
ghost use Rattle.std.specs.Prelude.{◌≡◌, ◌<◌, ◌≤◌, length};
ghost use Rattle.memory.specs.Address.{strided, offset_by};
ghost use Rattle.memory.specs.Working.{address_in, AddressesBelow};

use crate::access::Addressing;
use numbers::halves;
use state::Element;

impl Addressing {
    // The address of an element by its offset.
    fn by_offset(self, elements: &[u64; 1024], i: Element) -> u32
        requires { i.0 < 64 }
        ensures { result ≡ offset_by self.base elements.now self.vb.0 i.0 }
    {
        self.base
            .wrapping_add(halves::longword(elements[state::place(self.vb, i)]))
    }

    // The address of an element.
    pub(crate) fn of_element(self, elements: &[u64; 1024], i: Element) -> u32
        requires { i.0 < 64 }
        ensures { result ≡ address_in self elements.now i.0 }
    {
        if self.offsets {
            return self.by_offset(elements, i);
        }
        self.base.wrapping_add(halves::multiple(i.0, self.stride))
    }

    // The addresses of all elements below n by their offsets.
    fn all_by_offset(self, addresses: &mut [u32; 64], elements: &[u64; 1024], n: usize)
        requires { n ≤ 64 }
        ensures { AddressesBelow (offset_by self.base elements.now self.vb.0) n addresses.new }
    {
        for (i, place) in addresses[..n].iter_mut().enumerate() {
            *place = self.by_offset(elements, Element(i));
        }
    }

    // The same by the stride. The loop has no branch, so that the machine does several at once.
    fn all_by_stride(self, addresses: &mut [u32; 64], n: usize)
        requires { n ≤ 64 }
        ensures { AddressesBelow (strided self.base self.stride) n addresses.new }
    {
        let mut address = self.base;
        for place in &mut addresses[..n] {
            *place = address;
            address = address.wrapping_add(self.stride);
        }
    }

    // The addresses of all elements below n.
    pub(crate) fn of_all(self, addresses: &mut [u32; 64], elements: &[u64; 1024], n: usize)
        requires { n ≤ 64 }
        ensures { AddressesBelow (address_in self elements.now) n addresses.new }
    {
        if self.offsets {
            self.all_by_offset(addresses, elements, n);
        } else {
            self.all_by_stride(addresses, n);
        }
    }
}
