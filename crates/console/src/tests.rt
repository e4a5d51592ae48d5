// The rounds with a machine that is none of the programs'.
ghost use Rattle.std.specs.Prelude.{◌<◌, [], length};
ghost use Rattle.printer.specs.declared.Channel.TheVariants.{Errors};
ghost use Rattle.console.specs.Rounds.{buffer_room};

use crate::rounds::{Machine, Stepped, run, run_keeping};
use printer::Channel;

// Takes every byte of a step and puts none; where it has a number, the step refuses with it.
#[derive(Drop)]
struct Taker {
    taken: u64,
    number: Option<u8>,
}

impl Machine for Taker {
    ghost goes = { λ m s t m' s'. Unit {0} };

    ghost rests = { λ m s n. length s < buffer_room };

    ghost ending = { λ m n place. [] };

    ghost channel = { λ m n. Errors };

    ghost laws = { record { still = λ m s. tt; further = λ m s t m' s' c t' m'' s'' p q. tt; short = λ m s h. h } };

    fn step(&mut self, s: &[u8], _out: &mut [u8]) -> Stepped {
        self.taken = self.taken.wrapping_add(s.len() as u64);
        Stepped {
            at: s.len(),
            n: 0,
            more: false,
            refused: self.number,
        }
    }

    fn put_ending(&self, _refused: Option<u8>, _place: u64, _out: &mut [u8]) -> usize {
        0
    }

    fn ending_on(&self, _refused: Option<u8>) -> Channel {
        Channel::Errors
    }
}

#[test]
fn rounds(rt: HostRuntime) {
    let mut taker = Taker {
        taken: 0,
        number: None,
    };
    let ended = run(&rt, b"test", &mut taker);
    assert!(rt;
        ended.refused.is_none() && ended.place == taker.taken,
        "all that came is taken, and nothing refused"
    );

    let mut refuser = Taker {
        taken: 0,
        number: Some(7),
    };
    let ended = run(&rt, b"test", &mut refuser);
    assert!(rt;
        ended.refused == Some(7) && ended.place == refuser.taken,
        "a refusal has its number and its place"
    );

    let ended = run_keeping(&rt, b"test", &mut refuser);
    assert!(rt; ended.refused == Some(7), "the same where a number is kept");
}
