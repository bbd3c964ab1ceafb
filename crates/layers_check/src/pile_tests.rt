use answers::{Fault, Layer, Refusal};
use layers::{Pair, Protection, Ranges};
use pages::Relocation;
use std::test::Fail;
use store::{Packed, Plain, Store};

fn layer<S: Store>(_: &S) -> u8 {
    S::LAYER.number()
}

#[test]
fn layers_are_numbered(rt: HostRuntime) {
    let mut words = [0u32; 1];
    let plain = Plain::new(&mut words);
    assert_eq!(rt; layer(&plain), 1);
    let mut bytes = [0u8; 3];
    let packed = Packed::new(&mut bytes);
    assert_eq!(rt; layer(&packed), 2);
    let pair = Pair::new(plain, packed);
    assert_eq!(rt; layer(&pair), 3);
    let guarded = Protection::new(pair, Ranges::new());
    assert_eq!(rt; layer(&guarded), 4);
    assert_eq!(rt; Relocation::<Plain>::LAYER.number(), 5);
}

// Words 0 to 3 are the first store's, 4 and 5 the second's, of which word 1 takes no write.
#[test]
fn a_pair_and_its_seam(rt: HostRuntime) -> Result<(), Fail> {
    let mut words = [10u32, 11, 12, 13];
    let mut bytes = [0u8, 0, 20, 0, 0, 21];
    let mut ranges = Ranges::new();
    ranges.add(1, 1)?;
    let second = Protection::new(Packed::new(&mut bytes), ranges);
    let mut pair = Pair::new(Plain::new(&mut words), second);
    assert_eq!(rt; pair.size(), 6);
    let past = [
        Fault::beyond(Layer::Pair, 6),
        Fault::beyond(Layer::Pair, 4_294_967_295),
    ];
    assert_eq!(rt;
        [
            pair.read(0),
            pair.read(3),
            pair.read(4),
            pair.read(5),
            pair.read(6),
        ],
        [Ok(10), Ok(13), Ok(20), Ok(21), Err(past[0])]
    );
    let held = Err(Fault::protected(Layer::Protection, 1));
    assert_eq!(rt;
        [
            pair.ask(3),
            pair.ask(4),
            pair.ask(5),
            pair.ask(6),
            pair.ask(4_294_967_295),
        ],
        [Ok(()), Ok(()), held, Err(past[0]), Err(past[1])]
    );
    assert_eq!(rt;
        [
            pair.write(3, 0o30),
            pair.write(4, 0o40),
            pair.write(5, 0o50),
            pair.write(6, 0o60),
        ],
        [Ok(()), Ok(()), held, Err(past[0])]
    );
    assert_eq!(rt;
        [pair.read(2), pair.read(3), pair.read(4), pair.read(5)],
        [Ok(12), Ok(0o30), Ok(0o40), Ok(21)]
    );
    Ok(())
}

// 200,000 words and 100,000 make 262,144, of which the second store has 62,144.
#[test]
fn a_pair_is_cut(rt: HostRuntime) -> Result<(), Fail> {
    let mut first = vec![in rt.alloc(); 0u32; 200_000]?;
    let mut second = vec![in rt.alloc(); 0u32; 100_000]?;
    let mut pair = Pair::new(
        Plain::new(first.as_mut_slice()),
        Plain::new(second.as_mut_slice()),
    );
    assert_eq!(rt; pair.size(), 262_144);
    let past = Fault::beyond(Layer::Pair, 262_144);
    assert_eq!(rt;
        [
            pair.write(199_999, 5),
            pair.write(262_143, 7),
            pair.write(262_144, 8),
        ],
        [Ok(()), Ok(()), Err(past)]
    );
    assert_eq!(rt;
        [
            pair.read(199_999),
            pair.read(200_000),
            pair.read(262_143),
            pair.read(262_144),
        ],
        [Ok(5), Ok(0), Ok(7), Err(past)]
    );
    assert!(rt; second.len() == 100_000);
    assert_eq!(rt; [second[62_143], second[62_144]], [7, 0]);
    Ok(())
}

// The ends of a range are of it; what the store below refuses, it refuses first.
#[test]
fn a_protection_and_its_edges(rt: HostRuntime) -> Result<(), Fail> {
    let mut words = [1u32, 2, 3, 4, 5, 6];
    let mut ranges = Ranges::new();
    ranges.add(1, 3)?;
    ranges.add(5, 262_143)?;
    let mut core = Protection::new(Plain::new(&mut words), ranges);
    assert_eq!(rt; core.size(), 6);
    for (address, answer) in [
        (0, Ok(())),
        (1, Err(Fault::protected(Layer::Protection, 1))),
        (2, Err(Fault::protected(Layer::Protection, 2))),
        (3, Err(Fault::protected(Layer::Protection, 3))),
        (4, Ok(())),
        (5, Err(Fault::protected(Layer::Protection, 5))),
        (6, Err(Fault::beyond(Layer::Plain, 6))),
        (262_144, Err(Fault::beyond(Layer::Plain, 262_144))),
    ] {
        assert_eq!(rt;
            [core.ask(address), core.write(address, 9)],
            [answer, answer]
        );
    }
    assert_eq!(rt; core.read(6), Err(Fault::beyond(Layer::Plain, 6)));
    assert_eq!(rt; words, [9, 2, 3, 4, 9, 6]);
    Ok(())
}

// A refused range is not added: all sixteen still find room, and none covers address 40.
#[test]
fn ranges_and_their_refusals(rt: HostRuntime) -> Result<(), Fail> {
    let mut ranges = Ranges::new();
    assert_eq!(rt;
        [
            ranges.add(41, 40),
            ranges.add(40, 262_144),
            ranges.add(4_294_967_295, 4_294_967_295),
        ],
        [Err(Refusal::Range); 3]
    );
    for _ in 0..15 {
        ranges.add(7, 7)?;
    }
    ranges.add(262_143, 262_143)?;
    assert_eq!(rt;
        [
            ranges.add(41, 40),
            ranges.add(0, 262_144),
            ranges.add(40, 40),
        ],
        [
            Err(Refusal::Range),
            Err(Refusal::Range),
            Err(Refusal::Ranges),
        ]
    );
    assert_eq!(rt;
        [
            ranges.cover(6),
            ranges.cover(7),
            ranges.cover(8),
            ranges.cover(40),
            ranges.cover(262_143),
        ],
        [false, true, false, false, true]
    );
    Ok(())
}
