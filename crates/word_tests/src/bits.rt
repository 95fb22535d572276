//! The bits of words, headers and layouts, by the tables of the formats (`tagged_word`).

use tagged_word::{Class, Header, Kind, LayoutWord, Word, odd};

/// Bits, what they stand for, and the address where that is a reference.
const CLASSES: [(u64, Class, Option<u32>); 10] = [
    (0x2, Class::Small(1), None),
    (0xffff_ffff_ffff_fffe, Class::Small(-1), None),
    (0x7fff_fffe, Class::Small(1_073_741_823), None),
    (0xffff_ffff_8000_0000, Class::Small(-1_073_741_824), None),
    (0x15, Class::Ref(5), Some(5)),
    (0x3_ffff_fffd, Class::Ref(u32::MAX), Some(u32::MAX)),
    (0x3, Class::Odd(odd::UNDEFINED), None),
    (0x7, Class::Odd(odd::HOLE), None),
    (0xb, Class::Odd(odd::UNBOUND), None),
    (0xf, Class::Odd(odd::WIDE), None),
];

/// The word that is made of what a word stands for.
fn word_of(class: Class) -> Option<Word> {
    match class {
        Class::Small(v) => Word::small(v as i64),
        Class::Ref(at) => Some(Word::reference(at)),
        Class::Odd(code) => Some(Word::odd(code)),
    }
}

/// Whether a word is read as the class, by all its bits and by its lowest two, and made of it.
fn stands_for(word: Word, class: Class) -> bool {
    match word.class() {
        Some(read) => read == class && word.known_class() == class && word_of(class) == Some(word),
        None => false,
    }
}

#[test]
fn words_and_their_classes_have_the_bits_of_the_table(rt: HostRuntime) {
    for (bits, class, address) in CLASSES {
        assert!(rt; stands_for(Word(bits), class), "bits {bits}");
        assert!(rt; Word(bits).address() == address, "address of {bits}");
    }
    // Bits 34 and 40 are of no word.
    for bits in [0x4_0000_0001, 0x100_0000_0000] {
        assert!(rt; Word(bits).class().is_none(), "bits {bits}");
        assert!(rt; Word(bits).address().is_none(), "address of {bits}");
    }
    assert!(rt; Word::small(1_073_741_824).is_none());
    assert!(rt; Word::small(-1_073_741_825).is_none());
}

/// A word, and the kind, the cap, the used slots and the raw ones of the layout that it stands for.
const LAYOUTS: [(u64, Kind, u32, u32, u32); 10] = [
    (0x2221, Kind::Plain, 2, 2, 0b10),
    (0xf_f881, Kind::Plain, 8, 8, 0xff),
    (1, Kind::Plain, 0, 0, 0),
    (2, Kind::List, 0, 0, 0),
    (3, Kind::Weak, 0, 0, 0),
    (4, Kind::Store, 0, 0, 0),
    (5, Kind::Table, 0, 0, 0),
    (6, Kind::Boxed, 0, 0, 0),
    (7, Kind::Filler, 0, 0, 0),
    (8, Kind::Gap, 0, 0, 0),
];

/// Words of no layout: no kind; a cap of 9; 3 slots used of 2; a raw bit for slot 2 of 2; a store
/// with a cap; bits 20 and 63.
const NO_LAYOUTS: [u64; 14] = [
    0,
    9,
    10,
    11,
    12,
    13,
    14,
    15,
    0x91,
    0x321,
    0x4221,
    0x14,
    0x10_2221,
    0x8000_0000_0000_2221,
];

/// Whether a word is read as the layout, and made of it.
fn lays_out(word: u64, layout: LayoutWord) -> bool {
    match LayoutWord::parse(word) {
        Some(read) => read == layout && read.word() == word,
        None => false,
    }
}

#[test]
fn headers_and_layouts_have_the_bits_of_the_formats(rt: HostRuntime) {
    let header = Header {
        shape: 9,
        object: 3,
    };
    assert!(rt; header.word() == Word(0x3_0000_0026));
    assert!(rt; Header::parse(Word(0x3_0000_0026)) == Some(header));
    for bits in [0x3_0000_0024, 0x3_0004_0026, 0x3_8000_0026] {
        assert!(rt; Header::parse(Word(bits)).is_none(), "bits {bits}");
    }
    for (word, kind, cap, used, raw) in LAYOUTS {
        let layout = LayoutWord {
            kind,
            cap,
            used,
            raw,
        };
        assert!(rt; lays_out(word, layout), "word {word}");
    }
    for word in NO_LAYOUTS {
        assert!(rt; LayoutWord::parse(word).is_none(), "word {word}");
    }
}
