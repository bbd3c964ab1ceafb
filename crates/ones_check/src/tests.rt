use ones::{Address, Double, Ones, Word};

#[test]
fn sums_carry_around(rt: HostRuntime) {
    for (a, b, sum) in [
        (0o77776, 1, 0),
        (0o77777, 1, 1),
        (0o77777, 0o77777, 0o77777),
        (0, 0, 0),
        (0o77777, 0, 0),
    ] {
        assert_eq!(rt; Address::low(a).plus(Address::low(b)).bits(), sum);
    }
    let one = Double::joined(Word::low(0), Word::low(1));
    let sum = Double::joined(Word::low(0), Word::low(0o77777777)).plus(one);
    assert_eq!(rt; sum.upper().bits(), 1);
    assert_eq!(rt; sum.lower().bits(), 0);
}

#[test]
fn differences_borrow_around(rt: HostRuntime) {
    for (a, b, difference) in [
        (0o77777, 1, 0o77776),
        (1, 1, 0),
        (0, 1, 0o77776),
        (0o77777, 0, 0o77777),
    ] {
        assert_eq!(rt; Address::low(a).minus(Address::low(b)).bits(), difference);
    }
    assert_eq!(rt; Address::low(0o12345).complement().bits(), 0o65432);
}

#[test]
fn overflow_is_seen(rt: HostRuntime) {
    let table = [
        (0o37777777, 1, 0o40000000, true),
        (0o40000000, 0o77777777, 0o40000000, false),
        (0o40000000, 0o77777776, 0o37777777, true),
        (0o40000000, 0o37777777, 0, false),
    ];
    for (a, b, sum, overflows) in table {
        let (a, b) = (Word::low(a), Word::low(b));
        assert_eq!(rt; a.plus(b).bits(), sum);
        assert_eq!(rt; a.sum_overflows(b), overflows);
        assert_eq!(rt; a.difference_overflows(b.complement()), overflows);
    }
}

#[test]
fn order_is_signed(rt: HostRuntime) {
    let table = [
        (0o77777777, 0, true, true),
        (0, 0o77777777, false, true),
        (0o40000000, 0o37777777, true, false),
        (0o77777776, 0o77777777, true, false),
        (1, 2, true, false),
        (5, 5, false, true),
    ];
    for (a, b, below, alike) in table {
        let (a, b) = (Word::low(a), Word::low(b));
        assert_eq!(rt; a.below(b), below);
        assert_eq!(rt; a.alike(b), alike);
    }
}

#[test]
fn shifts_move_bits(rt: HostRuntime) {
    for (a, count, left) in [
        (0o12345670, 24, 0o12345670),
        (0o40000000, 1, 1),
        (0o12345670, 3, 0o23456701),
        (1, 63, 0o100000),
    ] {
        assert_eq!(rt; Word::low(a).left(count).bits(), left);
    }
    for (a, count, right) in [
        (0o40000000, 1, 0o60000000),
        (0o40000000, 63, 0o77777777),
        (0o37777777, 3, 0o3777777),
        (0o37777777, 63, 0),
    ] {
        assert_eq!(rt; Word::low(a).right(count).bits(), right);
    }
}

#[test]
fn widths_change(rt: HostRuntime) {
    for (a, word) in [
        (0o77777, 0o77777777),
        (0o37777, 0o00037777),
        (0o40000, 0o77740000),
    ] {
        assert_eq!(rt; Address::low(a).extended().bits(), word);
    }
    assert_eq!(rt; Address::low(0o123456).bits(), 0o23456);
    assert!(rt; Address::new(0o77777).is_some());
    assert!(rt; Address::new(0o100000).is_none());
    assert!(rt; Ones::<17>::new(0o377777).is_some());
    assert!(rt; Ones::<0>::new(0).is_none());
    assert!(rt; Ones::<49>::new(0).is_none());
}
