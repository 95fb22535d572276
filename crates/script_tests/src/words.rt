//! Command lines with what they ask for.

use command_line::{Invocation, Sizes, WordsStop, read_words};
use std::test::Fail;

/// Sizes of so many pages, young words and helpers.
fn sizes(pages: u32, young: u32, helpers: u32) -> Sizes {
    Sizes {
        pages,
        young,
        helpers,
    }
}

/// The run of a script that a seed generates, with so many forms.
fn soak(sizes: Sizes, seed: u64, forms: u32) -> Invocation {
    Invocation::Soak { sizes, seed, forms }
}

#[test]
fn words_are_read_as_what_they_ask_for(rt: HostRuntime) -> Result<(), Fail> {
    let alloc = rt.alloc();
    let lines = [
        ("run", Ok(Invocation::Run(sizes(64, 8192, 2)))),
        (
            "run --young=64 --pages 1 --helpers 0",
            Ok(Invocation::Run(sizes(1, 64, 0))),
        ),
        (
            "run --helpers=7 --pages 512 --young 65536 --",
            Ok(Invocation::Run(sizes(512, 65536, 7))),
        ),
        ("run --pages 513", Err(WordsStop::BadWords)),
        ("check --pages 3", Ok(Invocation::Check(sizes(3, 8192, 2)))),
        ("check --pages 513", Err(WordsStop::BadWords)),
        ("soak 0 1", Ok(soak(sizes(64, 8192, 2), 0, 1))),
        (
            "soak --pages=5 7 --young 64 -- 30000",
            Ok(soak(sizes(5, 64, 2), 7, 30_000)),
        ),
        (
            "soak 18446744073709551615 0 --helpers 7",
            Ok(soak(sizes(64, 8192, 7), u64::MAX, 0)),
        ),
        ("soak 0 1 2", Err(WordsStop::BadWords)),
        ("soak 0 30001", Err(WordsStop::BadWords)),
        ("soak 0 1 -x", Err(WordsStop::BadWords)),
        ("soak -- 0 1 --pages=2", Err(WordsStop::BadWords)),
        ("gen 0 1", Ok(Invocation::Gen { seed: 0, forms: 1 })),
    ];
    for (line, wanted) in lines {
        let mut words = Vec::new(alloc);
        for word in line.split(' ') {
            words.push(String::from_str(alloc, word)?)?;
        }
        assert_eq!(rt; read_words(alloc, &words), wanted, "{line}");
    }
    Ok(())
}
