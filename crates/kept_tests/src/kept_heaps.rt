//! Kept heaps of runs, judged against the ideal meaning of the same scripts.
use crate::runs::{meant, run_kept};
use heap_check::check;
use heap_command::Command::LetValue;
use heap_command::Operand::Int;
use slow_check::shows;
use std::test::Fail;
use std::thread::Threads;

const SCRIPTS: [&[u8]; 24] = [
    b"let x 1",
    b"new x 2\nset x a 1\nset x b 5000000000\nset x c x\ndel x b\nset x c 5000000000",
    b"new x 0\nset x a 5000000000\nset x b 5000000000\nset x a x\ndel x a\ndel x b",
    b"new x 1\nset x a 1\nset x b 2\nset x c 3\nset x d 4\nset x e 5\nset x f 5000000000\ndel x c",
    b"new x 8\nset x a x\nlet y x\ndrop x\nset y b 7\nget z y c\nset z a 1\nlet x 1",
    b"new x 1\nnew y 1\nset x a y\nset y a x\nnew x 1\nlet z -9223372036854775808\nadd z z",
    b"new x 2\nset x a 1\nnew y 2\nset y b 1\nset y a 1\nset x b undefined\nprint q",
    b"list l\npush l 1\npush l 5000000000\npush l l\npush l undefined\npush l 5000000000\nput l 0 l\nput l 1 7",
    b"list l\npush l 1\npush l 5000000000\npush l l\npush l undefined\nshift l 1\npush l 7\n\
      trunc l 3\nput l 0 5000000001",
    b"new x 1\nlist l\npush l x\npush l l\nshift l 2\npush l x\npush l 1\ntrunc l 1\nlist m\n\
      trunc m 0\nset x a l\nshift l 2",
    b"new x 1\nlist l\npush l x\nset x a l\nlist m\npush m l\nat y m 0\nat z l 0\ndrop l\n\
      push y 5000000000\nput y 0 5000000001",
    b"weak m\nnew k 1\nwput m k 5000000000\nwput m m k\nlist l\nwput m l l\nset k a m\n\
      wdel m k\nwput m k 7\nwput m l 6000000000",
    b"weak m\nnew k 0\nwput m k 1\nnew k 0\nwput m k m\nwget y m k\nnew k 0\n\
      wput m k 5000000000\ndrop k\nweak n\nwput n m n\nwdel n m\nwdel n n",
    b"new x 1\nset x a x\nset x b 5000000000\nnew y 0\nscavenge\nset y c x\nset y d 6000000000\ndel x a\n\
      scavenge\nset x e y\ndrop y\nscavenge",
    b"list l\npush l 1\npush l 5000000000\npush l l\nnew x 2\npush l x\ndrop x\nshift l 1\nscavenge\n\
      push l 7\nput l 0 1\ntrunc l 3\nscavenge\npush l 5000000000",
    b"weak m\nnew k 1\nwput m k 5000000000\nset k f k\nlist l\npush l k\ndrop k\nscavenge\nat j l 0\n\
      wput m j m\nnew k 0\nwput m k 1\nwput m l 2\nwdel m k\nscavenge\ndrop l",
    b"let w 5000000000\nnew a 1\nnew b 1\nset a n b\nset b n a\ndrop b\nscavenge\nnew c 7\nscavenge\nnew d 7\n\
      new e 7\nnew f 7\nnew g 7\nnew h 7\nnew i 7\nnew j 7\nnew k 7\nnew c 7\nnew d 7\nnew e 7\nnew f 7",
    b"new x 1\nset x a x\nset x b 5000000000\nscavenge\nscavenge\nnew y 0\nset x a y\ndrop y\n\
      set x c 6000000000\nscavenge\nset x b 7\nnew y 0\nset x d y\ndel x a\nset x b 8000000000",
    b"list l\npush l 1\npush l 5000000000\npush l l\nscavenge\nscavenge\nnew y 1\nput l 0 y\nset y a l\n\
      drop y\nscavenge\nshift l 1\npush l 7000000000\nscavenge\ntrunc l 2\nnew y 0\npush l y",
    b"weak m\nnew k 0\nwput m k 1\nscavenge\nscavenge\nnew j 1\nwput m j k\nwput m k j\nset j a m\n\
      drop k\nscavenge\nwput m j 5000000000\nscavenge\nwdel m j\nnew k 0\nwput m k k",
    b"list l\nnew a 7\npush l a\nnew a 7\npush l a\nnew a 7\npush l a\nnew a 7\npush l a\n\
      new a 7\npush l a\nnew a 7\npush l a\nnew a 7\npush l a\nnew a 7\npush l a\n\
      new a 7\npush l a\nnew a 7\npush l a\nnew a 7\npush l a\nnew a 7\npush l a\n\
      new a 7\npush l a\nnew a 7\npush l a\nnew a 7\npush l a\nnew a 7\npush l a\nprint l",
    b"list l\nnew a 7\nnew b 7\nnew c 7\nnew d 7\nnew e 7\nnew f 7\nnew g 7\nnew h 7\nnew i 7\nnew j 7\n\
      new k 7\nnew n 7\nnew p 1\npush l 5000000000\nnew x 0\npush l x\nset x f l\nput l 0 x\n\
      push l 6000000000\ndrop x\nscavenge\nshift l 1\npush l 7000000000\nscavenge\ntrunc l 1\npush l l",
    b"new x 1\nset x a x\nnew a 7\nnew b 7\nnew c 7\nnew d 7\nnew e 7\nnew f 7\nnew g 7\nnew h 7\n\
      new i 7\nnew j 7\nnew k 7\nnew n 7\nnew p 1\nset x a 5000000000\nset x b a\nnew y 0\nset a f y\n\
      drop y\nscavenge\nset x a 6000000000\nset x c x\nscavenge\ndel x a",
    b"weak m\nnew a 7\nnew b 7\nnew c 7\nnew d 7\nnew e 7\nnew f 7\nnew g 7\nnew h 7\nnew i 7\nnew j 7\n\
      new k 7\nnew n 7\nnew p 1\nwput m a b\nwput m b 5000000000\nnew q 0\nwput m q q\ndrop q\n\
      scavenge\nwdel m a\nnew q 0\nwput m q 6000000000\nscavenge",
];

/// Whether the kept heap of a script's run shows its graph, and whether it shows that graph with one
/// binding more.
fn judged<R: Threads + Sync + AllocGlobal>(rt: &R, source: &[u8]) -> Result<(bool, bool), Fail> {
    let kept = run_kept(rt, "128", source)?.1;
    let mut ideal = meant(rt.alloc(), source, kept.executed)?;
    let Ok(_counts) = check(rt.alloc(), &kept.image) else {
        return Err(Fail::from("a flaw, or memory was refused"));
    };
    let same = shows(&kept.image, &ideal);
    let bound = ideal.step(&LetValue { x: 0, v: Int(77) });
    match (same, bound, shows(&kept.image, &ideal)) {
        (Ok(same), Ok(_), Ok(other)) => Ok((same, other)),
        _ => Err(Fail::from("memory was refused")),
    }
}

#[test]
fn kept_heaps_show_the_graphs_of_their_scripts(rt: HostRuntime) -> Result<(), Fail> {
    for script in SCRIPTS {
        assert_eq!(rt; judged(&rt, script)?, (true, false));
    }
    Ok(())
}
