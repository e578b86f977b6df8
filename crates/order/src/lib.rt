// The check of an order list: one pass, with sets of positions. A set is a number whose bit k says that position k is in it. `Left` has for each element the
// positions whose step of it has not come; an IOTA's stays in every element's set until its one step comes.
#![tactic(auto)]

ghost use Rattle.std.specs.Prelude.{◌≡◌, true, false, ◌&&◌, ℕ, ◌≤◌, ◌<◌, ◌^◌, ◌+◌, ◌-◌, eqb, length, get_or, Ok, Err, is_some, IfSome};
ghost use Rattle.std.specs.Int.Bits.{bit_or};
ghost use Rattle.numbers.specs.Choice.{pick};
ghost use Rattle.numbers.specs.Bits.{bit};
ghost use Rattle.order.specs.Steps.{position, element};
ghost use Rattle.order.specs.SetsWorking.{joined, parted, apart as apart_of, gone, somewhere as somewhere_of, due as due_of, sentinel, group_of, may_come, Struck, EntryTried, StretchTaken, Started, verdict_by};

use numbers::bits;
use std::array;

// No position is in both sets.
fn apart(a: u64, b: u64) -> bool
    ensures { result ≡ apart_of a b }
{
    (a & b) == 0
}

// Position p is left, and none that it is bound to is.
fn due(bound: u64, left: u64, p: usize) -> bool
    requires { p < 64 }
    ensures { result ≡ due_of bound left p }
{
    bits::bit(left, p) & apart(bound, left)
}

// A position's group: itself and those that it is bound to. An IOTA waits for every element, so its group is the sentinel, which is always left: `passes`
// never sees it come, and `comes` decides.
fn group(iotas: u64, bound: u64, p: usize) -> u64
    requires { p < 64 }
    ensures { result ≡ pick (bit iotas p) (2 ^ sentinel) (joined bound p) }
{
    if bits::bit(iotas, p) {
        return 1 << 63;
    }
    bound | (1 << p)
}

// The groups of all positions.
fn groups_of(iotas: u64, bound: &[u64; 16]) -> [u64; 16]
    ensures { (p : ℕ) → p < 16 → get_or result p 0 ≡ group_of iotas bound.now p }
{
    array::from_fn(|p| group(iotas, bound[p], p))
}

// What the check knows of a queue: how many positions it has, which of them are IOTAs, and for each position those that it is bound to, and its group.
#[derive(Drop)]
struct Bindings<'a> {
    n: usize,
    iotas: u64,
    bound: &'a [u64; 16],
    groups: [u64; 16],
    ghost few: { n ≤ 16 },
    ghost earlier: { (p k : ℕ) → p < n → bit (get_or bound.now p 0) k ≡ true → k < p },
    ghost grouped: { (p : ℕ) → p < n → get_or groups p 0 ≡ group_of iotas bound.now p },
}

// An element with its set, which need not be read back.
#[derive(Clone, Copy)]
struct Kept {
    at: usize,
    set: u64,
}

// For each element the set of the positions that it still waits for. Position 63, the sentinel, which no queue has, is always left (`group` says why).
#[derive(Drop)]
struct Left {
    sets: [u64; 64],
    ghost stays: { (e : ℕ) → e < 64 → gone sets e sentinel ≡ false },
}

impl Left {
    // At the start every position is left at each element below VLR; from VLR on only IOTAs.
    fn start(&mut self, vlr: u64, iotas: u64)
        requires { vlr ≤ 64 }
        ensures { Started vlr iotas self.old.sets self.new.sets }
    {
        for set in &mut self.sets[vlr as usize..] {
            *set = iotas | (1 << 63);
        }
    }

    // The IOTA of entry x comes, if it may.
    fn iota_comes(&mut self, bound: u64, x: u64) -> bool
        requires { position x < 16 }
        ensures { (result ≡ (eqb (element x) 0 && due_of bound (somewhere_of self.old.sets 64) (position x))) × (result ≡ true → Struck true x self.old.sets self.new.sets) }
    {
        let p = (x / 64) as usize;
        if x % 64 != 0 {
            return false;
        }
        if !due(bound, somewhere(&self.sets), p) {
            return false;
        }
        release(&mut self.sets, p);
        true
    }

    // The entry x comes, if it may.
    fn comes(&mut self, bindings: &Bindings, x: u64) -> bool
        ensures { (result ≡ may_come bindings.now.n bindings.now.iotas bindings.now.bound.now self.old.sets x) × (result ≡ true → Struck (bit bindings.now.iotas (position x)) x self.old.sets self.new.sets) }
    {
        let p = (x / 64) as usize;
        let e = (x % 64) as usize;
        if p >= bindings.n {
            return false;
        }
        if bits::bit(bindings.iotas, p) {
            return self.iota_comes(bindings.bound[p], x);
        }
        let here = self.sets[e];
        if !due(bindings.bound[p], here, p) {
            return false;
        }
        self.sets[e] = here ^ (1 << p);
        true
    }

    // The set of element e. If it is the one kept, reading it back would wait for the store just made.
    fn fetch(&self, kept: Kept, e: usize) -> u64
        requires { (get_or self.now.sets kept.at 0 ≡ kept.set) × (e < 64) }
        ensures { result ≡ get_or self.now.sets e 0 }
    {
        if e == kept.at {
            return kept.set;
        }
        self.sets[e]
    }

    // Flips x's position in its element's set: if nothing of its group is left then, x may come, and comes: its element and set are given. None decides
    // nothing, since x may be an IOTA: `comes` tells.
    fn passes(&mut self, bindings: &Bindings, kept: Kept, x: u64) -> Option<Kept>
        requires { get_or self.old.sets kept.at 0 ≡ kept.set }
        ensures tried { EntryTried (is_some result) bindings.now.n bindings.now.iotas bindings.now.bound.now x self.old.sets self.new.sets }
        ensures again { IfSome result (λ k. get_or self.new.sets k.at 0 ≡ k.set) }
    {
        let p = (x / 64) as usize;
        let e = (x % 64) as usize;
        if p >= bindings.n {
            return None;
        }
        let here = self.fetch(kept, e);
        let flipped = here ^ (1 << p);
        if !apart(bindings.groups[p], flipped) {
            return None;
        }
        self.sets[e] = flipped;
        Some(Kept {
            at: e,
            set: flipped,
        })
    }

    // Up to two entries from i on: the place of the first that is not seen to come, or i + 2. The second is read only after the first has come.
    fn pair(&mut self, bindings: &Bindings, list: &[u64], i: usize) -> usize
        requires { i + 1 < length list.now }
        ensures { StretchTaken bindings.now.n bindings.now.iotas bindings.now.bound.now list.now self.old.sets i self.new.sets result }
    {
        let x = list[i];
        let at = (x % 64) as usize;
        let set = self.sets[at];
        let Some(kept) = self.passes(bindings, Kept { at, set }, x) else {
            return i;
        };
        let Some(_) = self.passes(bindings, kept, list[i + 1]) else {
            return i + 1;
        };
        i + 2
    }

    // Goes on from `from` while four entries remain and each is seen to come; gives where it stops. IOTAs stay out of this loop, which is the fast one.
    fn ahead(&mut self, bindings: &Bindings, list: &[u64], from: usize) -> usize
        requires { from ≤ length list.now }
        ensures { StretchTaken bindings.now.n bindings.now.iotas bindings.now.bound.now list.now self.old.sets from self.new.sets result }
    {
        if list.len() < 3 {
            return from;
        }
        let stop = list.len() - 3;
        let mut i = from;
        while i < stop {
            let half = self.pair(bindings, list, i);
            if half != i + 2 {
                return half;
            }
            i = self.pair(bindings, list, half);
            if i != half + 2 {
                return i;
            }
        }
        i
    }

    // What the check says of a list all of whose entries have come: it is permitted, or refused at its length.
    fn ended(&self, bindings: &Bindings, entries: usize) -> Result<(), u64>
        ensures { result ≡ pick (apart_of (2 ^ bindings.now.n - 1) (somewhere_of self.now.sets 64)) (Ok tt) (Err entries) }
    {
        let all: u64 = (1 << bindings.n) - 1;
        if apart(all, somewhere(&self.sets)) {
            return Ok(());
        }
        Err(entries as u64)
    }
}

// The positions that some element still waits for.
fn somewhere(sets: &[u64]) -> u64
    ensures { result ≡ somewhere_of sets.now (length sets.now) }
{
    sets.iter().fold(0, |any, set| any | *set)
}

// No element waits for position p any more, whether it did or not.
fn release(sets: &mut [u64; 64], p: usize)
    requires { p < 64 }
    ensures long { length sets.new ≡ length sets.old }
    ensures each { (e : ℕ) → e < 64 → get_or sets.new e 0 ≡ parted (get_or sets.old e 0) p }
{
    for set in sets {
        *set = (*set | (1 << p)) ^ (1 << p);
    }
}

// Whether a list is permitted; a refused one with the place of its first bad entry, or its length if steps are missing. Where `ahead` stops (an IOTA, a bad
// entry, the last three), `comes` tests that entry by itself. No entry is read past the first bad one.
pub fn check(n: usize, vlr: u64, iotas: u64, bound: &[u64; 16], list: &[u64]) -> Result<(), u64>
    requires sizes { (n ≤ 16) × (vlr ≤ 64) }
    requires earlier { (p k : ℕ) → p < n → bit (get_or bound.now p 0) k ≡ true → k < p }
    ensures { result ≡ verdict_by n vlr iotas bound.now list.now }
{
    let bindings = Bindings {
        n,
        iotas,
        bound,
        groups: groups_of(iotas, bound),
    };
    let mut left = Left {
        sets: [u64::MAX; 64],
    };
    left.start(vlr, iotas);
    let mut i = left.ahead(&bindings, list, 0);
    while i < list.len() {
        if !left.comes(&bindings, list[i]) {
            return Err(i as u64);
        }
        i = left.ahead(&bindings, list, i + 1);
    }
    left.ended(&bindings, i)
}
