//! An ordered register over memory that is lent to it, for every kind of element that has a key.
#![tactic(auto)]

ghost use Rattle.std.specs.Prelude.{◌≡◌, ℕ, ◌+◌, ◌-◌, ◌<◌, ◌≤◌, List, [], ◌∷◌, ◌++◌, length, take, drop, replicate, None, is_ok, is_some, if◌then◌else◌, nat_le, nat_lt, slice_get, slice_set};
ghost use Rattle.std.specs.List.{remove};
ghost use Rattle.register.specs.Keys.{place_of, first_from, rank, placed, each_changed};

/// An element with a key; a free place of a register holds the vacant one.
pub trait Keyed: Copy {
    ghost key: { Self → ℕ };

    ghost vacant: { Self };

    fn key_of(&self) -> u16
        ensures { result ≡ key self.now };

    fn vacancy() -> Self
        ensures { result ≡ vacant };
}

/// A change that can be made of every element. A trait, since of a closure a public call would require that it may be called, which asks more of callers.
pub trait Change<E> {
    ghost gives: { Self → ℕ → E → E };

    /// What comes to the place for the element that stands there.
    fn change(&self, place: usize, element: E) -> E
        ensures { result ≡ gives self.now place element };
}

/// No place of the register is free.
#[derive(Clone, Copy, PartialEq, Eq, Debug)]
pub struct Full;

// Not by `fill`, which asks that no clone fails: no bound says so.
fn clear<E: Keyed>(places: &mut [E])
    ensures { places.new ≡ replicate (length places.old) E.Keyed.vacant }
{
    let vacant = E::vacancy();
    places.fill_with(|| vacant);
}

// How many elements stand before the first with a key above this one. From the front: a binary search finds it only where keys rise, and that they do is
// known to what holds a register and not to it, which takes any key in `replace` and from a change.
fn rank_of<E: Keyed>(held: &[E], key: u16) -> usize
    ensures value { result ≡ rank E.Keyed.key key held.now }
    ensures bound { result ≤ length held.now }
{
    held.iter()
        .position(|e| key < e.key_of())
        .unwrap_or(held.len())
}

// Puts an element among those before the last place, in the order of keys; those after it move up.
fn put_in<E: Keyed>(places: &mut [E], e: E)
    requires { 0 < length places.old }
    ensures { places.new ≡ placed E.Keyed.key e (take (length places.old - 1) places.old) }
{
    let last = places.len() - 1;
    let place = rank_of(&places[..last], e.key_of());
    places[last] = e;
    places[place..].rotate_right(1);
}

// The same among the first `count` places.
fn put_among<E: Keyed>(slots: &mut [E], count: usize, e: E)
    requires { count < length slots.old }
    ensures { slots.new ≡ placed E.Keyed.key e (take count slots.old) ++ drop (count + 1) slots.old }
{
    put_in(&mut slots[..count + 1], e);
}

// Takes an element out; those after it move down, and the last place becomes vacant.
fn take_out<E: Keyed>(places: &mut [E], place: usize)
    requires { place < length places.old }
    ensures { places.new ≡ remove places.old place ++ E.Keyed.vacant ∷ [] }
{
    places[place] = E::vacancy();
    places[place..].rotate_left(1);
}

// The same among the first `count` places.
fn take_from<E: Keyed>(slots: &mut [E], count: usize, place: usize)
    requires { (place < count) × (count ≤ length slots.old) }
    ensures { slots.new ≡ remove (take count slots.old) place ++ E.Keyed.vacant ∷ drop count slots.old }
{
    take_out(&mut slots[..count], place);
}

// Puts what a change gives in the place of each element. A loop, since after `for_each` the proof knows nothing of what `iter_mut` lent.
fn change_all<E: Copy, C: Change<E>>(elements: &mut [E], change: &C)
    ensures { elements.new ≡ each_changed (C.gives change.now) elements.old }
{
    for (place, e) in elements.iter_mut().enumerate() {
        *e = change.change(place, *e);
    }
}

// The same among the first `count` places.
fn change_first<E: Copy, C: Change<E>>(slots: &mut [E], count: usize, change: &C)
    requires { count ≤ length slots.old }
    ensures { slots.new ≡ each_changed (C.gives change.now) (take count slots.old) ++ drop count slots.old }
{
    change_all(&mut slots[..count], change);
}

/// The first `count` of the lent places hold the elements, the others are free. Memory is lent, since no library here takes its own: so a count stands
/// beside the slice, here and nowhere else. Both are the caller's too, and each method answers for any two; those that change elements keep a register tidy.
#[derive(Drop)]
pub struct Register<'a, E: Keyed> {
    pub slots: &'a mut [E],
    pub count: usize,
}

// A method that changes elements says for itself that the places are the same: a struct has no place for what none of its methods changes.
impl<'a, E: Keyed> Register<'a, E> {
    ghost use Rattle.register.specs.Registers.{elements_of, room_of, SamePlaces, Tidy, held};

    /// A register with no element: every place is made vacant.
    pub fn new(slots: &'a mut [E]) -> Register<'a, E>
        ensures count { result.count ≡ 0 }
        ensures slots { result.slots.now ≡ replicate (length slots.old) E.Keyed.vacant }
        ensures elements { elements_of result ≡ [] }
        ensures room { room_of result ≡ length slots.old }
        ensures same_reference { result.slots.ghost_name ≡ slots.entry.ghost_name }
        ensures tidy { Tidy E.Keyed.vacant result }
    {
        clear(&mut *slots);
        Register { slots, count: 0 }
    }

    /// The elements, in their order.
    pub fn elements(&self) -> &[E]
        ensures { result.now ≡ elements_of self.now }
    {
        let slots = &*self.slots;
        slots.get(..self.count).unwrap_or(slots)
    }

    /// Whether no place is free.
    pub fn is_full(&self) -> bool
        ensures { result ≡ nat_le (room_of self.now) self.now.count }
    {
        self.slots.len() <= self.count
    }

    // From the front, since the register does not know that keys rise.
    /// The place of the first element with the key.
    pub fn place_of(&self, key: u16) -> Option<usize>
        ensures { result ≡ place_of E.Keyed.key key (elements_of self.now) }
    {
        self.elements().iter().position(|e| e.key_of() == key)
    }

    // From the front, since the register does not know that keys rise.
    /// The first element with a key at or above this one.
    pub fn element_from(&self, key: u16) -> Option<E>
        ensures { result ≡ first_from E.Keyed.key key (elements_of self.now) }
    {
        self.elements().iter().find(|e| e.key_of() >= key).copied()
    }

    // The element at a place; none where there is none, or the count is above the number of places.
    fn held_at(&self, place: usize) -> Option<E>
        ensures { result ≡ held self.now place }
    {
        if self.count > self.slots.len() {
            return None;
        }
        self.elements().get(place).copied()
    }

    /// Puts an element among the others, in the order of keys; those after it move up. Refused, and nothing changes, where no place is free.
    #[tactic(auto, using(crate::proofs::Held::put_in_front))]
    pub fn insert(&mut self, e: E) -> Result<(), Full>
        ensures answer { is_ok result ≡ nat_lt self.old.count (room_of self.old) }
        ensures slots { self.new.slots.now ≡ (if is_ok result then placed E.Keyed.key e (elements_of self.old) ++ drop (self.old.count + 1) self.old.slots.now else self.old.slots.now) }
        ensures count { self.new.count ≡ (if is_ok result then self.old.count + 1 else self.old.count) }
        ensures elements { elements_of self.new ≡ (if is_ok result then placed E.Keyed.key e (elements_of self.old) else elements_of self.old) }
        ensures places { SamePlaces self.old self.new }
        ensures tidy { Tidy E.Keyed.vacant self.old → Tidy E.Keyed.vacant self.new }
    {
        if self.is_full() {
            return Err(Full);
        }
        put_among(&mut *self.slots, self.count, e);
        self.count += 1;
        Ok(())
    }

    /// Takes the element at a place out, if there is one; those after it move down, and the place left over becomes vacant.
    pub fn remove(&mut self, place: usize) -> Option<E>
        ensures answer { result ≡ held self.old place }
        ensures slots { self.new.slots.now ≡ (if is_some result then remove (elements_of self.old) place ++ E.Keyed.vacant ∷ drop self.old.count self.old.slots.now else self.old.slots.now) }
        ensures count { self.new.count ≡ (if is_some result then self.old.count - 1 else self.old.count) }
        ensures elements { self.old.count ≤ room_of self.old → elements_of self.new ≡ remove (elements_of self.old) place }
        ensures places { SamePlaces self.old self.new }
        ensures tidy { Tidy E.Keyed.vacant self.old → Tidy E.Keyed.vacant self.new }
    {
        let e = self.held_at(place)?;
        take_from(&mut *self.slots, self.count, place);
        self.count -= 1;
        Some(e)
    }

    /// Puts another element in the place of one, if there is one, and answers which stood there.
    pub fn replace(&mut self, place: usize, e: E) -> Option<E>
        ensures answer { result ≡ held self.old place }
        ensures slots { self.new.slots.now ≡ (if is_some result then slice_set self.old.slots.now place e else self.old.slots.now) }
        ensures count { self.new.count ≡ self.old.count }
        ensures elements { self.old.count ≤ room_of self.old → elements_of self.new ≡ slice_set (elements_of self.old) place e }
        ensures places { SamePlaces self.old self.new }
        ensures tidy { Tidy E.Keyed.vacant self.old → Tidy E.Keyed.vacant self.new }
    {
        let old = self.held_at(place)?;
        self.slots[place] = e;
        Some(old)
    }

    /// Makes the change of every element. The elements are not lent as a `&mut`: past ghost fields of what holds a register that gets no proof.
    pub fn change_each<C: Change<E>>(&mut self, change: &C)
        ensures slots { self.new.slots.now ≡ each_changed (C.gives change.now) (elements_of self.old) ++ drop self.old.count self.old.slots.now }
        ensures count { self.new.count ≡ self.old.count }
        ensures elements { elements_of self.new ≡ each_changed (C.gives change.now) (elements_of self.old) }
        ensures places { SamePlaces self.old self.new }
        ensures tidy { Tidy E.Keyed.vacant self.old → Tidy E.Keyed.vacant self.new }
    {
        let count = self.count.min(self.slots.len());
        change_first(&mut *self.slots, count, change);
    }
}
