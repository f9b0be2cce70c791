// Examples of good and faulty texts.
use crate::fault::{LineFault, NumberFault, NumberFlaw, ProblemFault};
use crate::problem::{MAX_BYTES, read, read_limited};
use domain::refusal::Refusal;
use domain::strips::Action;
use std::test::Fail;

// The refusal of a text with 64 places for actions.
fn refusal(text: &[u8]) -> Option<Refusal> {
    read(text, &mut [Action::default(); 64])
        .err()
        .map(|fault| fault.refusal())
}

#[test]
fn two_atoms(rt: HostRuntime) -> Result<(), Fail> {
    let text =
        b"atom start goal\n0 0 1\n1 0 1\n\naction role atom\n0 a 0\n1 a 1\n\nfeature kind atom\n0 f 0\n0 f 1\n\nrule feature when then\n0 0 + -\n\n";
    let mut actions = [Action::default(); 3];
    let Ok(problem) = read(text, &mut actions) else {
        return Err(Fail::new("refused"));
    };
    assert_eq!(rt; problem.atoms, 2);
    assert_eq!(rt; problem.action_count, 2);
    assert!(rt; problem.start.is_empty());
    assert!(rt; problem.goal.contains(1));
    assert!(rt; actions[1].additions.contains(1) && !actions[1].additions.contains(0));
    assert_eq!(rt; problem.sketch.feature_count(), 1);
    assert_eq!(rt; problem.sketch.value(0, &problem.goal), 0);
    Ok(())
}

#[test]
fn first_fault(rt: HostRuntime) {
    assert_eq!(rt; refusal(b""), Some(Refusal::Form { line: 1 }));
    assert_eq!(rt; refusal(b"\n\n"), Some(Refusal::Form { line: 1 }));
    assert_eq!(rt;
        refusal(b"atom start goal\n\n"),
        Some(Refusal::Form { line: 2 })
    );
    assert_eq!(rt;
        refusal(b"atom start goal\n0 0 2\n"),
        Some(Refusal::Range { place: 2 })
    );
    assert_eq!(rt;
        refusal(b"atom start goal\n0 0 1\n\naction role atom\n64 p 01"),
        Some(Refusal::Form { line: 5 })
    );
    assert_eq!(rt;
        refusal(b"atom start goal\n0 0 1\n\naction role atom\n64 x 0"),
        Some(Refusal::Range { place: 5 })
    );
    assert_eq!(rt;
        refusal(b"atom start goal\n0 0 1\n\naction role atom\n64 p 999"),
        Some(Refusal::Range { place: 5 })
    );
    assert_eq!(rt;
        refusal(b"atom start goal\n0 0 1\n\naction role atom\n64 p 0"),
        Some(Refusal::Limit { place: 5 })
    );
    assert_eq!(rt;
        refusal(b"atom start goal\n0 0 1\n\naction role atom\n18446744073709551616 p 0"),
        Some(Refusal::Limit { place: 5 })
    );
}

#[test]
fn sketch_parts(rt: HostRuntime) {
    assert_eq!(rt;
        refusal(
            b"atom start goal\n0 0 1\n\naction role atom\n\nfeature kind atom\n0 b 0\n0 t 999\n",
        ),
        Some(Refusal::Form { line: 8 })
    );
    assert_eq!(rt;
        refusal(b"atom start goal\n0 0 1\n\naction role atom\n\nfeature kind atom\n0 b 0\n0 x 0\n"),
        Some(Refusal::Range { place: 8 })
    );
    assert_eq!(rt;
        refusal(
            b"atom start goal\n0 0 1\n\naction role atom\n\nfeature kind atom\n0 b 0\n\nrule feature when then\n0 0 + -\n0 0 x y\n",
        ),
        Some(Refusal::Form { line: 11 })
    );
    assert_eq!(rt;
        refusal(
            b"atom start goal\n0 0 1\n\naction role atom\n\nfeature kind atom\n0 b 0\n\nrule feature when then\n1 0 + -\n\n",
        ),
        Some(Refusal::RulesLeft { rules: 1 })
    );
    assert_eq!(rt;
        refusal(
            b"atom start goal\n0 0 1\n\naction role atom\n\nfeature kind atom\n0 b 0\n\nrule feature when then\n0 0 + -\n",
        ),
        Some(Refusal::Form { line: 11 })
    );
    assert_eq!(rt;
        refusal(
            b"atom start goal\n0 0 1\n\naction role atom\n\nfeature kind atom\n0 b 0\n\nrule feature when then\n0 0 + -\n\n",
        ),
        None
    );
}

#[test]
fn faults_are_held_whole(rt: HostRuntime) -> Result<(), Fail> {
    let Err(fault) = read(b"atom start goal\n0 00 1\n", &mut []) else {
        return Err(Fail::new("read"));
    };
    let number = NumberFault {
        line: 2,
        column: 2,
        flaw: NumberFlaw::LeadingZero,
    };
    assert_eq!(rt; fault, ProblemFault::Line(LineFault::Number(number)));
    Ok(())
}

#[test]
fn long_texts(rt: HostRuntime) -> Result<(), Fail> {
    let text = [b'a'; 16_385];
    let mut places = [Action::default(); 1];
    let Err(long) = read_limited(&text, MAX_BYTES, &mut places) else {
        return Err(Fail::new("read"));
    };
    let Err(wrong) = read_limited(&text[1..], MAX_BYTES, &mut places) else {
        return Err(Fail::new("read"));
    };
    assert_eq!(rt; long.refusal(), Refusal::Limit { place: 0 });
    assert_eq!(rt; wrong.refusal(), Refusal::Form { line: 1 });
    Ok(())
}
