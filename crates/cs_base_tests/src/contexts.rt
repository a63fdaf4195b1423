// Contexts, texts and lists.
use crate::fixtures::assert_at;
use cs_base::{Contexts, Sequence, Text};

// How many contexts, and the bits of their numbers.
const BITS: &[(u64, u32)] = &[
    (1, 0),
    (2, 1),
    (3, 2),
    (4, 2),
    (5, 3),
    (8, 3),
    (9, 4),
    (16, 4),
];

#[test]
fn contexts_number_one_to_sixteen(rt: HostRuntime) {
    assert!(rt; Contexts::new(0).is_none() && Contexts::new(17).is_none());
    for (count, bits) in BITS {
        let contexts = Contexts::new(*count).expect(&rt, "contexts");
        let is_as_many = u64::from(contexts.get()) == *count;
        assert_at(&rt, is_as_many && contexts.bits() == *bits, *count as usize);
    }
}

#[test]
fn a_text_is_copied(rt: HostRuntime) {
    let alloc = rt.alloc();
    let text = Text::from_str(alloc, "name").expect(&rt, "a text");
    let copy = text.copy(alloc).expect(&rt, "a copy");
    assert!(rt; copy.as_str() == "name");
    let mut list = Sequence::new(alloc);
    list.push(copy).expect(&rt, "an item");
    assert!(rt; list.len() == 1);
}
