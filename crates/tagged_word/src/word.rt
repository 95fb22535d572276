//! A word of a slot, and the classes of its bits.
ghost use Rattle.std.specs.Prelude.{◌≡◌, ◌≢◌, ◌<◌, ◌/◌, ◌%◌, ◌↔◌, ℕ, ℤ, false, IsTrue};
ghost use Rattle.std.specs.Prelude.{IsNone, IfSome, SomeIff, Some};
ghost use Rattle.tagged_word.specs.Words.{small, IsClass, bits_of};
ghost use Rattle.tagged_word.specs.Readings.{reference_in};

/// 64 bits of the heap.
#[derive(Clone, Copy, Debug, PartialEq, Eq)]
pub struct Word(pub u64);

/// What the bits of a word stand for.
#[derive(Clone, Copy, PartialEq, Eq)]
pub enum Class {
    /// An integer from -1073741824 to 1073741823.
    Small(i32),
    /// The cell at this address.
    Ref(u32),
    /// An odd value, by its code.
    Odd(u32),
}

const SMALL_MIN: i64 = -1_073_741_824;

const SMALL_MAX: i64 = 1_073_741_823;

/// Whether an integer fits a small one: it lies from -1073741824 to 1073741823.
#[inline(always)]
pub fn is_small(v: i64) -> bool
    ensures { result ≡ small v }
{
    v >= SMALL_MIN && v <= SMALL_MAX
}

impl Word {
    /// The word of a small integer; none for an integer outside its range.
    #[inline(always)]
    pub fn small(v: i64) -> Option<Word>
        ensures small { IfSome result (λ word. word.0 ≡ bits_of (Class.Small v)) }
        ensures outside { IsNone result ↔ (small v ≡ false) }
    {
        if is_small(v) {
            Some(Word((v * 2).cast_unsigned()))
        } else {
            None
        }
    }

    /// The word of a reference to the cell at an address.
    #[inline(always)]
    pub fn reference(address: u32) -> Word
        ensures { result.0 ≡ bits_of (Class.Ref address) }
    {
        Word(address as u64 * 4 + 1)
    }

    /// The word of an odd value.
    #[inline(always)]
    pub fn odd(code: u32) -> Word
        ensures { result.0 ≡ bits_of (Class.Odd code) }
    {
        Word(code as u64 * 4 + 3)
    }

    /// The address of the cell that the word refers to; none for a word that is no reference.
    #[inline(always)]
    pub fn address(self) -> Option<u32>
        ensures { result ≡ reference_in self.0 }
    {
        if self.0 % 4 == 1 {
            payload(self.0)
        } else {
            None
        }
    }

    /// Whether the word stands for a small integer: its lowest bit is 0, as no reference's and no odd value's is.
    #[inline(always)]
    pub fn is_small(self) -> bool
        ensures bit { IsTrue result ↔ (self.0 % 2 ≡ 0) }
        ensures small { (v : ℤ) → IsTrue (small v) → self.0 ≡ bits_of (Class.Small v) → IsTrue result }
        ensures reference { (address : ℕ) → self.0 ≡ bits_of (Class.Ref address) → result ≡ false }
        ensures odd { (code : ℕ) → self.0 ≡ bits_of (Class.Odd code) → result ≡ false }
    {
        self.0 % 2 == 0
    }

    /// The address that the word is known to refer to. Nothing is asked of its bits.
    #[inline(always)]
    pub fn known_address(self) -> u32
        requires { (address : ℕ) × (reference_in self.0 ≡ Some address) }
        ensures { reference_in self.0 ≡ Some result }
    {
        (self.0 / 4) as u32
    }

    /// What the word stands for; none for bits of no class.
    #[inline(always)]
    pub fn class(self) -> Option<Class>
        ensures parses { (class : Class) → IsClass class → self.0 ≡ bits_of class →
            result ≡ Some class }
        ensures one { IfSome result (λ class. IsClass class × (self.0 ≡ bits_of class)) }
        ensures none { IsNone result ↔ ((class : Class) → IsClass class → self.0 ≢ bits_of class) }
    {
        match self.0 % 4 {
            1 => Some(Class::Ref(payload(self.0)?)),
            3 => Some(Class::Odd(payload(self.0)?)),
            _ => small_class(self.0),
        }
    }

    /// What the word stands for, where it is known to have a class. Its two lowest bits tell which.
    #[inline(always)]
    pub fn known_class(self) -> Class
        requires known { (class : Class) × IsClass class × (self.0 ≡ bits_of class) }
        ensures { (class : Class) → IsClass class → self.0 ≡ bits_of class → result ≡ class }
    {
        let bits = self.0;
        if bits % 2 == 0 {
            return Class::Small((bits.cast_signed() / 2) as i32);
        }
        let above = (bits / 4) as u32;
        if bits % 4 == 1 {
            Class::Ref(above)
        } else {
            Class::Odd(above)
        }
    }
}

/// What stands above the two lowest bits, if 32 bits hold it.
#[inline(always)]
fn payload(bits: u64) -> Option<u32>
    ensures { SomeIff result (bits / 4 < 4294967296) (bits / 4) }
{
    u32::try_from(bits / 4).ok()
}

/// The small integer whose bits an even word has, if it has one's.
#[inline(always)]
fn small_class(bits: u64) -> Option<Class>
    requires { bits % 2 ≡ 0 }
    ensures parses { (v : ℤ) → IsTrue (small v) → bits ≡ bits_of (Class.Small v) →
        result ≡ Some (Class.Small v) }
    ensures one { IfSome result (λ class. IsClass class × (bits ≡ bits_of class)) }
    ensures none { IsNone result → (v : ℤ) → IsTrue (small v) → bits ≢ bits_of (Class.Small v) }
{
    let v = bits.cast_signed() / 2;
    if is_small(v) {
        Some(Class::Small(v as i32))
    } else {
        None
    }
}
