//! Layouts: the kind of a cell and its in-object slots, in one word for each shape. What a cell of a
//! layout has where is in `cell.rt`.
ghost use Rattle.std.specs.Prelude.{◌≡◌, ◌≢◌, ◌<◌, ◌≤◌, ◌↔◌, MatchOption, IfSome, IsNone, IsTrue};
ghost use Rattle.tagged_word.specs.Layouts.{in_object_most, kind_number, layout_bits};
ghost use Rattle.tagged_word.specs.Layouts.{HasInObjectSlots, IsLayout};
ghost use Rattle.tagged_word.specs.Readings.{kind_in, layout_in};

/// What a cell is.
#[derive(Clone, Copy, Debug, PartialEq, Eq)]
pub enum Kind {
    /// An object with fields.
    Plain,
    /// A list.
    List,
    /// A weak map.
    Weak,
    /// The slots of a list, or the fields of an object that do not stand in it.
    Store,
    /// The pairs of a weak map.
    Table,
    /// One integer of 64 bits.
    Boxed,
    /// One free word.
    Filler,
    /// Two or more free words.
    Gap,
}

/// The layout of the cells of one shape.
#[derive(Clone, Copy, Debug, PartialEq, Eq)]
pub struct LayoutWord {
    /// What the cells are.
    pub kind: Kind,
    /// How many in-object slots a plain cell has: at most 8.
    pub cap: u32,
    /// How many of these are used, the first ones.
    pub used: u32,
    /// The raw ones among the used: bit `i` stands for in-object slot `i`.
    pub raw: u32,
}

const IN_OBJECT_MOST: u32 = 8;

impl Kind {
    /// The number of the kind in a layout word.
    fn number(self) -> u64
        ensures { result ≡ kind_number self }
    {
        match self {
            Kind::Plain => 1,
            Kind::List => 2,
            Kind::Weak => 3,
            Kind::Store => 4,
            Kind::Table => 5,
            Kind::Boxed => 6,
            Kind::Filler => 7,
            Kind::Gap => 8,
        }
    }

    /// The kind that has a number, if one has it.
    fn of_number(number: u64) -> Option<Kind>
        ensures value { result ≡ kind_in number }
        ensures cases { MatchOption result ((kind : Kind) → number ≢ kind_number kind)
            (λ kind. number ≡ kind_number kind) }
    {
        match number {
            1 => Some(Kind::Plain),
            2 => Some(Kind::List),
            3 => Some(Kind::Weak),
            4 => Some(Kind::Store),
            5 => Some(Kind::Table),
            6 => Some(Kind::Boxed),
            7 => Some(Kind::Filler),
            8 => Some(Kind::Gap),
            _ => None,
        }
    }
}

impl LayoutWord {
    /// The layout of a kind with no in-object slots.
    pub fn bare(kind: Kind) -> LayoutWord
        ensures { result ≡ record { kind = kind; cap = 0; used = 0; raw = 0 } }
    {
        LayoutWord {
            kind,
            cap: 0,
            used: 0,
            raw: 0,
        }
    }

    /// The word of the layout. It asks no more than that each part fits its bits.
    pub fn word(self) -> u64
        requires cap { self.cap ≤ in_object_most }
        requires used { self.used ≤ in_object_most }
        requires raw { self.raw < 256 }
        ensures { result ≡ layout_bits self }
    {
        4096 * self.raw as u64
            + (256 * self.used as u64 + (16 * self.cap as u64 + self.kind.number()))
    }

    /// The layout that a word stands for; none for the word of no layout, as 0 is.
    pub fn parse(word: u64) -> Option<LayoutWord>
        ensures value { result ≡ layout_in word }
        ensures parses { (layout : LayoutWord) → IsLayout layout → word ≡ layout_bits layout →
            result ≡ Some layout }
        ensures one { IfSome result (λ layout. IsLayout layout × (word ≡ layout_bits layout)) }
        ensures none { IsNone result
            ↔ ((layout : LayoutWord) → IsLayout layout → word ≢ layout_bits layout) }
    {
        let layout = LayoutWord {
            kind: Kind::of_number(word % 16)?,
            cap: (word / 16 % 16) as u32,
            used: (word / 256 % 16) as u32,
            raw: u32::try_from(word / 4096).ok()?,
        };
        if layout.is_layout() {
            Some(layout)
        } else {
            None
        }
    }

    /// Whether only a plain one has in-object slots, and they are as many as they may be.
    fn is_layout(self) -> bool
        ensures { IsTrue result ↔ IsLayout self }
    {
        match self.kind {
            Kind::Plain => self.has_in_object_slots(),
            _ => self.cap == 0 && self.used == 0 && self.raw == 0,
        }
    }

    /// Whether there are at most 8 in-object slots, used ones among them, and a bit of the mask for those.
    #[tactic(auto, using(crate::proofs::Masks::shifted_out))]
    fn has_in_object_slots(self) -> bool
        ensures { IsTrue result ↔ HasInObjectSlots self }
    {
        self.cap <= IN_OBJECT_MOST && self.used <= self.cap && self.raw >> self.used == 0
    }
}
