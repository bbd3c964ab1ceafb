use crate::faults::unmapped;
use answers::Refusal;
use pages::{Group, Page, Relocation, Setting};
use std::test::Fail;
use store::{Plain, Store};

const fn page(page: u32, start: u32, length: u32) -> Setting {
    Some(Page {
        page,
        start,
        length,
        write: true,
    })
}

// The first check that fails names the refusal, and address 0 of group 0 stays where it was.
#[test]
fn settings_and_their_refusals(rt: HostRuntime) -> Result<(), Fail> {
    let mut words = [5u32; 1];
    let mut store = Relocation::new(Plain::new(&mut words));
    store.set(0, 0, page(0, 0, 1))?;
    for (group, entry, setting, refusal) in [
        (8, 16, page(128, 4, 0), Refusal::Group),
        (8, 0, None, Refusal::Group),
        (4_294_967_295, 0, page(0, 0, 1), Refusal::Group),
        (0, 16, page(128, 4, 0), Refusal::Entry),
        (0, 4_294_967_295, None, Refusal::Entry),
        (0, 0, page(128, 0, 1), Refusal::Descriptor),
        (0, 0, page(4_294_967_295, 0, 1), Refusal::Descriptor),
        (0, 0, page(1, 4, 1), Refusal::Descriptor),
        (0, 0, page(1, 4_294_967_295, 2), Refusal::Descriptor),
        (0, 0, page(1, 0, 0), Refusal::Descriptor),
        (0, 0, page(1, 0, 5), Refusal::Descriptor),
        (0, 0, page(1, 0, 4_294_967_295), Refusal::Descriptor),
        (0, 0, page(1, 1, 4), Refusal::Descriptor),
        (0, 0, page(1, 3, 2), Refusal::Descriptor),
    ] {
        assert_eq!(rt; store.set(group, entry, setting), Err(refusal));
        assert_eq!(rt; store.read(0)?, 5);
    }
    Ok(())
}

#[test]
fn an_absent_setting_removes_a_page(rt: HostRuntime) -> Result<(), Fail> {
    let mut words = [5u32; 1];
    let mut store = Relocation::new(Plain::new(&mut words));
    assert_eq!(rt; store.read(0), Err(unmapped(0)));
    store.set(0, 0, page(0, 0, 4))?;
    store.set(7, 15, page(0, 0, 4))?;
    assert_eq!(rt; [store.read(0)?, store.read(260_096)?], [5, 5]);
    store.set(0, 0, None)?;
    assert_eq!(rt; store.read(0), Err(unmapped(0)));
    assert_eq!(rt; store.read(260_096)?, 5);
    Ok(())
}

#[test]
fn groups_are_eight(rt: HostRuntime) {
    for number in 0..8u8 {
        assert_eq!(rt;
            Group::try_from(u32::from(number)).map(Group::number),
            Ok(number)
        );
    }
    for number in [8, 4_294_967_295] {
        assert_eq!(rt; Group::try_from(number), Err(Refusal::Group));
    }
}
