// Examples of the stores and of the numbers that their faults carry.
#![tactic(auto)]

#[cfg(test)]
mod tests {
    use answers::{Cause, Fault, Layer, Refusal};
    use std::test::Fail;
    use store::lend::{write_bytes, write_word};
    use store::{Packed, Plain, Store};

    #[test]
    fn packed_words(rt: HostRuntime) -> Result<(), Fail> {
        let mut bytes = [1u8, 2, 3, 0o377, 0, 1, 9, 9];
        let mut core = Packed::new(&mut bytes);
        assert_eq!(rt; core.size(), 2);
        assert_eq!(rt; core.read(0)?, 0o201003);
        assert_eq!(rt; core.read(1)?, 0o77600001);
        assert_eq!(rt; core.read(2), Err(Fault::beyond(Layer::Packed, 2)));
        assert_eq!(rt;
            core.ask(4_294_967_295),
            Err(Fault::beyond(Layer::Packed, 4_294_967_295))
        );
        core.write(1, 0xff00_0405)?;
        assert_eq!(rt; core.write(2, 7), Err(Fault::beyond(Layer::Packed, 2)));
        assert_eq!(rt; core.read(1)?, 0x405);
        Ok(())
    }

    // The caller's memory holds what was written once the core is gone; spare bytes and other words stay.
    #[test]
    fn the_callers_memory(rt: HostRuntime) -> Result<(), Fail> {
        let mut bytes = [1u8, 2, 3, 4, 5, 6, 7, 8];
        write_bytes(&mut bytes, 1, 0x0a0b0c)?;
        assert_eq!(rt;
            write_bytes(&mut bytes, 2, 0),
            Err(Fault::beyond(Layer::Packed, 2))
        );
        assert_eq!(rt; bytes, [1, 2, 3, 10, 11, 12, 7, 8]);
        let mut words = [0xffff_ffffu32, 0xff00_0001];
        write_word(&mut words, 1, 0x1200_0002)?;
        assert_eq!(rt;
            write_word(&mut words, 2, 0),
            Err(Fault::beyond(Layer::Plain, 2))
        );
        assert_eq!(rt; words, [0xffff_ffff, 2]);
        Ok(())
    }

    #[test]
    fn plain_words(rt: HostRuntime) -> Result<(), Fail> {
        let mut words = [0xff00_0005u32, 7];
        {
            let mut core = Plain::new(&mut words);
            assert_eq!(rt; core.size(), 2);
            assert_eq!(rt; core.read(0)?, 5);
            core.ask(1)?;
            core.write(1, 0x0123_4567)?;
            assert_eq!(rt; core.read(1)?, 0x23_4567);
            assert_eq!(rt; core.read(2), Err(Fault::beyond(Layer::Plain, 2)));
        }
        assert_eq!(rt; words, [0xff00_0005, 0x23_4567]);
        Ok(())
    }

    #[test]
    fn cores_without_words(rt: HostRuntime) {
        let mut words = [0u32; 0];
        assert_eq!(rt;
            Plain::new(&mut words).read(0),
            Err(Fault::beyond(Layer::Plain, 0))
        );
        let mut bytes = [9u8, 9];
        let mut core = Packed::new(&mut bytes);
        assert_eq!(rt; core.size(), 0);
        assert_eq!(rt; core.write(0, 0), Err(Fault::beyond(Layer::Packed, 0)));
    }

    // A core of more than 262,144 words has 262,144.
    #[test]
    fn sizes_are_cut(rt: HostRuntime) -> Result<(), Fail> {
        let mut words = vec![in rt.alloc(); 3u32; 262_145]?;
        let mut core = Plain::new(words.as_mut_slice());
        assert_eq!(rt; core.size(), 262_144);
        assert_eq!(rt; core.read(262_143)?, 3);
        assert_eq!(rt;
            core.write(262_144, 0),
            Err(Fault::beyond(Layer::Plain, 262_144))
        );
        let mut bytes = vec![in rt.alloc(); 1u8; 786_437]?;
        let core = Packed::new(bytes.as_mut_slice());
        assert_eq!(rt; core.size(), 262_144);
        assert_eq!(rt;
            core.read(262_144),
            Err(Fault::beyond(Layer::Packed, 262_144))
        );
        Ok(())
    }

    #[test]
    fn numbers_of_answers(rt: HostRuntime) {
        assert_eq!(rt;
            [
                Cause::Unmapped.number(),
                Cause::Protected.number(),
                Cause::Beyond.number(),
            ],
            [3, 4, 5]
        );
        assert_eq!(rt; <Plain<'_> as Store>::LAYER.number(), 1);
        assert_eq!(rt; <Packed<'_> as Store>::LAYER.number(), 2);
        assert_eq!(rt;
            [
                Layer::Pair.number(),
                Layer::Protection.number(),
                Layer::Relocation.number(),
            ],
            [3, 4, 5]
        );
        assert_eq!(rt; Refusal::Core(Fault::beyond(Layer::Plain, 0)).number(), 8);
    }
}
