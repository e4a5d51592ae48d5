// Each form once, at numbers.
use crate::{Checked, Stepped, lending, pairing, reading, restored, turned};

#[test]
fn forms(rt: HostRuntime) {
    let mut kept = 9u8;
    restored(&mut kept, |n| n / 2);
    assert!(rt; kept == 4, "the core's result is stored");

    let add = |given: u8, n: u8, _lists: ()| Stepped {
        rt: n / 2,
        answer: given,
    };
    let refused = turned(
        &mut kept,
        7u8,
        (),
        |given: u8| Checked {
            number: given,
            answer: 1u8,
        },
        add,
    );
    assert!(rt; kept == 4 && refused == 1, "a refused call writes nothing");
    let accepted = turned(
        &mut kept,
        0u8,
        (),
        |given: u8| Checked {
            number: given,
            answer: 1u8,
        },
        add,
    );
    assert!(rt;
        kept == 2 && accepted == 0,
        "an accepted call stores its state"
    );

    let given = lending(8u8, 3u8, |n: &mut u8, given: u8| {
        *n = *n / 2;
        given / 3
    });
    assert!(rt;
        given.rt == 4 && given.answer == 1,
        "what was lent comes back"
    );

    assert!(rt;
        pairing(&5u8, &2u8, |d: u8, e: u8| d / e) == 2,
        "both are read"
    );

    let answer = reading(
        &mut kept,
        &1u8,
        &2u8,
        &3u8,
        (),
        |n: &mut u8, g: u8, _i: u8, o: u8, _lists: ()| {
            *n = o;
            g
        },
    );
    assert!(rt; kept == 3 && answer == 1, "the lent state goes on");
}
