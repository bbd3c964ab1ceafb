use crate::faults::unmapped;
use answers::{Fault, Layer};
use layers::{Protection, Ranges};
use ones::{Address, Word};
use pages::{Group, Page, Place, Relocation, Setting};
use std::test::Fail;
use store::{Plain, Store};

// The groups are numbered 0 to 7.
fn group(number: u32) -> Group {
    match Group::try_from(number % 8) {
        Ok(group) => group,
        Err(_) => unreachable(),
    }
}

fn page(page: u32, start: u32, length: u32, write: bool) -> Setting {
    Some(Page {
        page,
        start,
        length,
        write,
    })
}

// Both ends of each quarter of a whole page and of three partial ones: group, address, core address.
#[test]
fn quarters_and_their_ends(rt: HostRuntime) -> Result<(), Fail> {
    // word k is k
    let mut words: Vec<u32> = (0..8_192).collect(rt.alloc())?;
    let mut store = Relocation::new(Plain::new(words.as_mut_slice()));
    store.set(0, 0, page(3, 1, 2, false))?;
    store.set(0, 1, page(2, 0, 4, true))?;
    store.set(2, 5, page(1, 0, 3, true))?;
    store.set(7, 15, page(0, 3, 1, true))?;
    for (g, address, core, write) in [
        (0, 0, 6_656, false),
        (0, 511, 7_167, false),
        (0, 512, 7_168, false),
        (0, 1_023, 7_679, false),
        (0, 2_048, 4_096, true),
        (0, 4_095, 6_143, true),
        (2, 10_240, 2_048, true),
        (2, 10_751, 2_559, true),
        (2, 10_752, 2_560, true),
        (2, 11_263, 3_071, true),
        (2, 11_264, 3_072, true),
        (2, 11_775, 3_583, true),
        (7, 30_720, 1_536, true),
        (7, 31_231, 2_047, true),
    ] {
        let place = store.place_for(group(g), Address::low(address))?;
        assert_eq!(rt;
            place,
            Place {
                address: core,
                write,
            }
        );
        assert_eq!(rt;
            view::read(&store, group(g), Address::low(address))?,
            Word::low(u64::from(core))
        );
    }
    Ok(())
}

// Past a page's length, and where no page is: group, address, original address.
#[test]
fn where_no_page_is(rt: HostRuntime) -> Result<(), Fail> {
    let mut words = [0u32; 1];
    let mut store = Relocation::new(Plain::new(&mut words));
    store.set(0, 0, page(3, 1, 2, false))?;
    store.set(2, 5, page(1, 0, 3, true))?;
    store.set(7, 15, page(0, 3, 1, true))?;
    for (g, address, original) in [
        (0, 1_024, 1_024),
        (0, 2_047, 2_047),
        (0, 2_048, 2_048),
        (1, 0, 32_768),
        (2, 10_239, 75_775),
        (2, 11_776, 77_312),
        (2, 12_287, 77_823),
        (7, 31_232, 260_608),
        (7, 32_767, 262_143),
    ] {
        let fault = unmapped(original);
        let at = Address::low(address);
        assert_eq!(rt; store.place_for(group(g), at), Err(fault));
        assert_eq!(rt; view::read(&store, group(g), at), Err(fault));
        assert_eq!(rt;
            [
                view::ask(&store, group(g), at),
                view::write(&mut store, group(g), at, Word::low(1)),
            ],
            [Err(fault); 2]
        );
    }
    assert_eq!(rt; store.size(), 262_144);
    assert_eq!(rt;
        [
            store.read(262_143),
            store.read(262_144),
            store.read(4_294_967_295),
        ],
        [
            Err(unmapped(262_143)),
            Err(Fault::beyond(Layer::Relocation, 262_144)),
            Err(Fault::beyond(Layer::Relocation, 4_294_967_295)),
        ]
    );
    Ok(())
}

// The core has 2,148 words, so page 1 has 100 of them: the flag is looked at before the core.
#[test]
fn pages_over_a_missing_core(rt: HostRuntime) -> Result<(), Fail> {
    let mut words = vec![in rt.alloc(); 6u32; 2_148]?;
    let mut store = Relocation::new(Plain::new(words.as_mut_slice()));
    store.set(1, 0, page(1, 0, 1, false))?;
    store.set(1, 1, page(1, 0, 1, true))?;
    let past = Fault::beyond(Layer::Plain, 2_148);
    let (last, held) = (
        Fault::protected(Layer::Relocation, 32_867),
        Fault::protected(Layer::Relocation, 32_868),
    );
    assert_eq!(rt;
        [
            store.read(32_867),
            store.read(32_868),
            store.read(34_915),
            store.read(34_916),
        ],
        [Ok(6), Err(past), Ok(6), Err(past)]
    );
    assert_eq!(rt;
        [
            store.ask(32_867),
            store.ask(32_868),
            store.ask(34_915),
            store.ask(34_916),
        ],
        [Err(last), Err(held), Ok(()), Err(past)]
    );
    assert_eq!(rt;
        [
            store.write(32_867, 1),
            store.write(32_868, 1),
            store.write(34_915, 2),
            store.write(34_916, 1),
        ],
        [Err(last), Err(held), Ok(()), Err(past)]
    );
    assert_eq!(rt; store.read(32_867)?, 2);
    Ok(())
}

// Core address 519 is address 7 of group 0, and address 4,615 of group 3, which may only read it.
#[test]
fn two_descriptors_of_one_cell(rt: HostRuntime) -> Result<(), Fail> {
    let mut words = [0u32; 520];
    let mut store = Relocation::new(Plain::new(&mut words));
    store.set(0, 0, page(0, 1, 1, true))?;
    store.set(3, 2, page(0, 0, 2, false))?;
    let (own, other) = (Address::low(7), Address::low(4_615));
    let word = Word::low(0o1234_5670);
    let held = Fault::protected(Layer::Relocation, 102_919);
    assert_eq!(rt;
        [
            view::write(&mut store, group(0), own, word),
            view::ask(&store, group(3), other),
            view::write(&mut store, group(3), other, Word::low(1)),
        ],
        [Ok(()), Err(held), Err(held)]
    );
    assert_eq!(rt;
        [
            view::read(&store, group(3), other),
            view::read(&store, group(0), own),
        ],
        [Ok(word), Ok(word)]
    );
    assert_eq!(rt; store.into_core().read(519)?, 0o1234_5670);
    Ok(())
}

// Core address 600 is protected; the page over it takes writes at the addresses beside it.
#[test]
fn a_protected_word_under_a_page(rt: HostRuntime) -> Result<(), Fail> {
    let mut words = [3u32; 1_024];
    let mut ranges = Ranges::new();
    ranges.add(600, 600)?;
    let mut store = Relocation::new(Protection::new(Plain::new(&mut words), ranges));
    store.set(0, 0, page(0, 1, 1, true))?;
    let held = Fault::protected(Layer::Protection, 600);
    assert_eq!(rt;
        [
            store.ask(87),
            store.ask(88),
            store.write(87, 4),
            store.write(88, 4),
            store.ask(89),
        ],
        [Ok(()), Err(held), Ok(()), Err(held), Ok(())]
    );
    assert_eq!(rt; [store.read(87), store.read(88)], [Ok(4), Ok(3)]);
    Ok(())
}
