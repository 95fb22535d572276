//! Command lines with what they ask for. Each function does nothing: its clauses are the rows.
ghost use Rattle.std.specs.Prelude.{◌≡◌, [], None, Some, codes};
ghost use Rattle.command_line.specs.Invocations.{invocation_of};
ghost use Rattle.command_line.specs.Lines.{words_of};

use crate::invocation::Invocation;
use page_space::Sizes;

/// Lines that ask for a run.
pub fn run_rows()
    ensures run { invocation_of (words_of (codes "run"))
        ≡ Some (Invocation.Run (record { pages = 64; young = 8192; helpers = 2 })) }
    ensures both_forms { invocation_of (words_of (codes "run --young=64 --pages 1"))
        ≡ Some (Invocation.Run (record { pages = 1; young = 64; helpers = 2 })) }
    ensures dashes { invocation_of (words_of (codes "run --"))
        ≡ Some (Invocation.Run (record { pages = 64; young = 8192; helpers = 2 })) }
    ensures zeros { invocation_of (words_of (codes "run --young 00064"))
        ≡ Some (Invocation.Run (record { pages = 64; young = 64; helpers = 2 })) }
    ensures least { invocation_of (words_of (codes "run --pages 1 --young 64 --helpers 0"))
        ≡ Some (Invocation.Run (record { pages = 1; young = 64; helpers = 0 })) }
    ensures most { invocation_of (words_of (codes "run --helpers=7 --young=65536 --pages=512"))
        ≡ Some (Invocation.Run (record { pages = 512; young = 65536; helpers = 7 })) }
{}

/// Lines that ask for a generated script.
pub fn generated_rows()
    ensures generated { invocation_of (words_of (codes "gen 0 1")) ≡ Some (Invocation.Gen 0 1) }
    ensures largest { invocation_of (words_of (codes "gen 18446744073709551615 30000"))
        ≡ Some (Invocation.Gen 18446744073709551615 30000) }
    ensures dashes_before { invocation_of (words_of (codes "gen -- 0 1")) ≡ Some (Invocation.Gen 0 1) }
    ensures dashes_between { invocation_of (words_of (codes "gen 0 -- 1")) ≡ Some (Invocation.Gen 0 1) }
    ensures dashes_behind { invocation_of (words_of (codes "gen 00 01 --")) ≡ Some (Invocation.Gen 0 1) }
    ensures no_forms { invocation_of (words_of (codes "gen 5 0")) ≡ Some (Invocation.Gen 5 0) }
{}

/// Lines that ask for a run that is checked.
pub fn checked_rows()
    ensures checked { invocation_of (words_of (codes "check"))
        ≡ Some (Invocation.Check (record { pages = 64; young = 8192; helpers = 2 })) }
    ensures pages { invocation_of (words_of (codes "check --pages 3"))
        ≡ Some (Invocation.Check (record { pages = 3; young = 8192; helpers = 2 })) }
    ensures both_forms { invocation_of (words_of (codes "check --young=64 --helpers 0"))
        ≡ Some (Invocation.Check (record { pages = 64; young = 64; helpers = 0 })) }
{}

/// Lines that ask for the run of a generated script.
pub fn soaked_rows()
    ensures soaked { invocation_of (words_of (codes "soak 0 1"))
        ≡ Some (Invocation.Soak (record { pages = 64; young = 8192; helpers = 2 }) 0 1) }
    ensures options_before { invocation_of (words_of (codes "soak --pages=5 --young 64 7 1"))
        ≡ Some (Invocation.Soak (record { pages = 5; young = 64; helpers = 2 }) 7 1) }
    ensures options_between { invocation_of (words_of (codes "soak 7 --pages 5 1"))
        ≡ Some (Invocation.Soak (record { pages = 5; young = 8192; helpers = 2 }) 7 1) }
    ensures options_behind { invocation_of (words_of (codes "soak 7 30000 --helpers 0"))
        ≡ Some (Invocation.Soak (record { pages = 64; young = 8192; helpers = 0 }) 7 30000) }
    ensures dashes { invocation_of (words_of (codes "soak -- 1 2"))
        ≡ Some (Invocation.Soak (record { pages = 64; young = 8192; helpers = 2 }) 1 2) }
    ensures dashes_between { invocation_of (words_of (codes "soak --helpers=1 3 -- 4"))
        ≡ Some (Invocation.Soak (record { pages = 64; young = 8192; helpers = 1 }) 3 4) }
    ensures dashes_behind { invocation_of (words_of (codes "soak 03 --pages 2 04 --"))
        ≡ Some (Invocation.Soak (record { pages = 2; young = 8192; helpers = 2 }) 3 4) }
    ensures least { invocation_of (words_of (codes "soak 0 0 --pages 1 --young 64 --helpers 0"))
        ≡ Some (Invocation.Soak (record { pages = 1; young = 64; helpers = 0 }) 0 0) }
    ensures most { invocation_of (words_of (codes
        "soak --helpers=7 18446744073709551615 --young=65536 30000 --pages=512")) ≡ Some
        (Invocation.Soak (record { pages = 512; young = 65536; helpers = 7 }) 18446744073709551615 30000) }
{}

/// Lines that are refused for their words.
pub fn refused_word_rows()
    ensures no_words { invocation_of [] ≡ None }
    ensures no_command { invocation_of (words_of (codes "--pages 1 run")) ≡ None }
    ensures help_command { invocation_of (words_of (codes "help")) ≡ None }
    ensures positional { invocation_of (words_of (codes "run x")) ≡ None }
    ensures checked_word { invocation_of (words_of (codes "check x")) ≡ None }
    ensures after_dashes { invocation_of (words_of (codes "run -- --pages 1")) ≡ None }
    ensures hyphen { invocation_of (words_of (codes "run -")) ≡ None }
    ensures abbreviated { invocation_of (words_of (codes "run --page 1")) ≡ None }
    ensures short { invocation_of (words_of (codes "run -p 1")) ≡ None }
    ensures twice { invocation_of (words_of (codes "run --pages 1 --pages=1")) ≡ None }
    ensures no_value { invocation_of (words_of (codes "run --pages")) ≡ None }
    ensures help { invocation_of (words_of (codes "run --help")) ≡ None }
    ensures version { invocation_of (words_of (codes "run --version")) ≡ None }
    ensures one_word { invocation_of (words_of (codes "gen 0")) ≡ None }
    ensures dashes_for_a_word { invocation_of (words_of (codes "gen 0 --")) ≡ None }
    ensures two_dashes { invocation_of (words_of (codes "gen -- -- 1")) ≡ None }
    ensures four_words { invocation_of (words_of (codes "gen -- 0 1 2")) ≡ None }
    ensures option_of_gen { invocation_of (words_of (codes "gen 0 1 --pages 2")) ≡ None }
{}

/// Lines of `soak` that are refused for their words.
pub fn refused_soak_rows()
    ensures no_words { invocation_of (words_of (codes "soak")) ≡ None }
    ensures one_word { invocation_of (words_of (codes "soak 0")) ≡ None }
    ensures three_words { invocation_of (words_of (codes "soak 0 1 2")) ≡ None }
    ensures word_for_a_value { invocation_of (words_of (codes "soak --pages 0 1")) ≡ None }
    ensures twice { invocation_of (words_of (codes "soak --pages 1 0 1 --pages=1")) ≡ None }
    ensures no_value { invocation_of (words_of (codes "soak 0 1 --pages")) ≡ None }
    ensures after_dashes { invocation_of (words_of (codes "soak -- 0 1 --pages 2")) ≡ None }
    ensures two_dashes { invocation_of (words_of (codes "soak -- 0 -- 1")) ≡ None }
    ensures dashes_for_a_value { invocation_of (words_of (codes "soak 0 --pages -- 1")) ≡ None }
    ensures stray { invocation_of (words_of (codes "soak 0 1 -x")) ≡ None }
    ensures help { invocation_of (words_of (codes "soak 0 1 --help")) ≡ None }
    ensures unknown { invocation_of (words_of (codes "soak 0 1 --seed=2")) ≡ None }
{}

/// Lines that are refused for their numbers.
pub fn refused_number_rows()
    ensures no_pages { invocation_of (words_of (codes "run --pages 0")) ≡ None }
    ensures many_pages { invocation_of (words_of (codes "run --pages 513")) ≡ None }
    ensures few_young { invocation_of (words_of (codes "run --young 63")) ≡ None }
    ensures many_young { invocation_of (words_of (codes "run --young 65537")) ≡ None }
    ensures many_helpers { invocation_of (words_of (codes "run --helpers 8")) ≡ None }
    ensures minus { invocation_of (words_of (codes "run --helpers -1")) ≡ None }
    ensures plus { invocation_of (words_of (codes "run --helpers=+1")) ≡ None }
    ensures empty { invocation_of (words_of (codes "run --pages=")) ≡ None }
    ensures dashes { invocation_of (words_of (codes "run --pages -- 3")) ≡ None }
    ensures large_seed { invocation_of (words_of (codes "gen 18446744073709551616 1")) ≡ None }
    ensures many_forms { invocation_of (words_of (codes "gen 0 30001")) ≡ None }
    ensures large_soaked_seed { invocation_of (words_of (codes "soak 18446744073709551616 1")) ≡ None }
    ensures many_soaked_forms { invocation_of (words_of (codes "soak 0 30001")) ≡ None }
    ensures soaked_pages { invocation_of (words_of (codes "soak 0 1 --pages 513")) ≡ None }
    ensures minus_seed { invocation_of (words_of (codes "soak -- -1 1")) ≡ None }
{}
