// Key counts, refusals and marks of the tuple measure on examples.
use crate::measure::Measure;
use crate::tuples::Tuples;
use domain::atoms::AtomSet;
use domain::refusal::Refusal;
use std::test::Fail;

#[test]
fn counts(rt: HostRuntime) -> Result<(), Fail> {
    assert_eq!(rt; Tuples::new(73, 3)?.count(), 64_898);
    assert_eq!(rt; Tuples::new(256, 2)?.count(), 32_897);
    assert_eq!(rt; Tuples::new(256, 1)?.count(), 257);
    assert_eq!(rt; Tuples::new(256, 0)?.count(), 1);
    Ok(())
}

#[test]
fn refusals(rt: HostRuntime) {
    assert_eq!(rt; Tuples::new(74, 3).err(), Some(Refusal::ManyKeys));
    assert_eq!(rt; Tuples::new(1, 4).err(), Some(Refusal::Range { place: 0 }));
    assert_eq!(rt; Tuples::new(0, 1).err(), Some(Refusal::Range { place: 0 }));
    assert_eq!(rt;
        Tuples::new(257, 1).err(),
        Some(Refusal::Limit { place: 0 })
    );
}

// Of four atoms the true ones are 1 and 3. Atom 7 is none of the four.
fn one_and_three() -> AtomSet {
    AtomSet::of(&[1, 3, 7])
}

#[test]
fn pairs(rt: HostRuntime) -> Result<(), Fail> {
    let measure = Tuples::new(4, 2)?;
    let mut marks = [0; 11];
    assert!(rt; measure.is_novel(&one_and_three(), &marks));
    measure.mark(&one_and_three(), &mut marks);
    assert_eq!(rt; marks, [1, 0, 1, 0, 1, 0, 0, 0, 0, 1, 0]);
    assert!(rt; !measure.is_novel(&one_and_three(), &marks));
    Ok(())
}

// The last key, that of atom 3 alone, lies past the table: it counts as marked.
#[test]
fn one_byte_short(rt: HostRuntime) -> Result<(), Fail> {
    let measure = Tuples::new(4, 1)?;
    let mut marks = [0; 4];
    measure.mark(&one_and_three(), &mut marks);
    assert_eq!(rt; marks, [1, 0, 1, 0]);
    assert!(rt; !measure.is_novel(&one_and_three(), &marks));
    Ok(())
}
