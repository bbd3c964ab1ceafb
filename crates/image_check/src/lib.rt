// Images that are read and images that are refused.
#![tactic(auto)]

#[cfg(test)]
mod tests {
    use answers::Refusal;
    use image::Image;
    use std::alloc::{AllocError, Global};
    use std::test::Fail;

    #[test]
    fn accepted(rt: HostRuntime) {
        let rows: [(&[u8], u8, u16, &[u8]); 4] = [
            (
                b"RCK\x00\x01\x00\x00\x03\x00\x03\x33\x00\x05\x37\x00\x02\x00\x00\x00",
                0,
                3,
                b"\x33\x00\x05\x37\x00\x02\x00\x00\x00",
            ),
            (b"RCK\x00\x01\x3F\x27\x10\x00\x00", 63, 10_000, b""),
            (b"RCK\x00\x01\x00\x00\x01\x00\x00", 0, 1, b""),
            (
                b"RCK\x00\x01\x01\x02\x03\x00\x01\x04\x05\x06",
                1,
                515,
                b"\x04\x05\x06",
            ),
        ];
        for (bytes, keys, length, words) in rows {
            assert_eq!(rt;
                Image::read(bytes),
                Ok(Image {
                    keys,
                    length,
                    words,
                })
            );
        }
    }

    #[test]
    fn refused(rt: HostRuntime) {
        let rows: [(&[u8], Refusal); 16] = [
            (b"", Refusal::ImageShort),
            (b"R", Refusal::ImageShort),
            (b"RCK\x00\x01\x00\x00\x01\x00", Refusal::ImageShort),
            (b"QCK\x00\x01\x00\x00\x01\x00\x00", Refusal::ImageMark),
            (b"RDK\x00\x01\x00\x00\x01\x00\x00", Refusal::ImageMark),
            (b"RCk\x00\x01\x00\x00\x01\x00\x00", Refusal::ImageMark),
            (b"RCK\x00\x00\x00\x00\x01\x00\x00", Refusal::ImageVersion),
            (b"RCK\x00\x02\x00\x00\x01\x00\x00", Refusal::ImageVersion),
            (b"RCK\x01\x00\x00\x00\x01\x00\x00", Refusal::ImageVersion),
            (b"RCK\x00\x01\x00\x00\x00\x00\x00", Refusal::Length),
            (b"RCK\x00\x01\x00\x27\x11\x00\x00", Refusal::Length),
            (b"RCK\x00\x01\x40\x00\x01\x00\x00", Refusal::Keys),
            (b"RCK\x00\x01\x00\x00\x01\x00\x01", Refusal::ImageLength),
            (
                b"RCK\x00\x01\x00\x00\x01\x00\x01\x00\x00",
                Refusal::ImageLength,
            ),
            (
                b"RCK\x00\x01\x00\x00\x01\x00\x01\x00\x00\x00\x00",
                Refusal::ImageLength,
            ),
            (b"RCK\x00\x01\x00\x00\x01\x00\x00\x00", Refusal::ImageLength),
        ];
        for (bytes, refusal) in rows {
            assert_eq!(rt; Image::read(bytes), Err(refusal));
        }
    }

    #[test]
    fn first_of_two_refusals(rt: HostRuntime) {
        let rows: [(&[u8], Refusal); 5] = [
            (b"RCL\x00\x01\x00\x00\x01\x00", Refusal::ImageShort),
            (b"RCL\x00\x02\x00\x00\x01\x00\x00", Refusal::ImageMark),
            (b"RCK\x00\x02\x00\x00\x00\x00\x00", Refusal::ImageVersion),
            (b"RCK\x00\x01\x40\x00\x00\x00\x00", Refusal::Length),
            (b"RCK\x00\x01\x40\x00\x01\x00\x01", Refusal::Keys),
        ];
        for (bytes, refusal) in rows {
            assert_eq!(rt; Image::read(bytes), Err(refusal));
        }
    }

    // An image of `size` bytes whose header has the keys 0, the length 1 and this count.
    fn large(heap: Global, count: u16, size: usize) -> Result<Vec<u8>, AllocError> {
        let mut bytes = b"RCK\x00\x01\x00\x00\x01".to_vec(heap)?;
        bytes.extend_from_slice(&count.to_be_bytes())?;
        bytes.resize(size, 7)?;
        Ok(bytes)
    }

    #[test]
    fn around_the_most_words(rt: HostRuntime) -> Result<(), Fail> {
        let rows = [
            (4_096, 12_298, None),
            (4_096, 12_297, Some(Refusal::ImageLength)),
            (4_096, 12_299, Some(Refusal::ImageLength)),
            (4_097, 12_301, Some(Refusal::ImageLength)),
        ];
        for (count, size, refusal) in rows {
            let bytes = large(rt.alloc(), count, size)?;
            assert_eq!(rt; Image::read(&bytes).err(), refusal);
        }
        let bytes = large(rt.alloc(), 4_096, 12_298)?;
        let words = vec![in rt.alloc(); 7; 12_288]?;
        assert_eq!(rt; Image::read(&bytes)?.words, words.as_slice());
        Ok(())
    }
}
