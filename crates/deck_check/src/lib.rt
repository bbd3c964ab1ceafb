// Tests of the deck's lines.
#![tactic(auto)]

#[cfg(test)]
mod tests {
    use deck::{Command, Problem, Style, read_line};
    use std::alloc::Global;
    use std::test::Fail;

    // The number of a `read`.
    fn read_number(heap: Global, line: &str) -> Option<u32> {
        match read_line(heap, line.as_bytes()) {
            Ok(Some(Command::Read(n))) => Some(n),
            _ => None,
        }
    }

    fn style(heap: Global, line: &str) -> Option<Style> {
        match read_line(heap, line.as_bytes()) {
            Ok(Some(Command::Record(style))) => Some(style),
            _ => None,
        }
    }

    fn problem(heap: Global, line: &[u8]) -> Option<Problem> {
        read_line(heap, line).err()
    }

    #[test]
    fn numbers(rt: HostRuntime) {
        let table = [
            ("read 64", 64),
            ("read 0o100", 64),
            ("read 0x40", 64),
            ("read 4294967295", 4294967295),
            ("read 0xFfFfffff", 4294967295),
            ("read 08", 8),
            ("read 3#x", 3),
            ("\tread \r 0 \t\r", 0),
        ];
        for (line, n) in table {
            assert_eq!(rt; read_number(rt.alloc(), line), Some(n), "{}", line);
        }
    }

    #[test]
    fn problems(rt: HostRuntime) {
        let table = [
            ("read 4294967296", Problem::Large),
            ("read 00000000000000000000x", Problem::Number),
            ("read 0x", Problem::Number),
            ("read 0o8", Problem::Number),
            ("read -1", Problem::Number),
            ("reads 1", Problem::Unknown),
            ("Read 1", Problem::Unknown),
            ("read", Problem::Few),
            ("read 1 2", Problem::Many),
            ("read 1 2 x", Problem::Number),
            ("pair 0", Problem::Many),
            ("words", Problem::Few),
            ("bytes 0 256", Problem::Byte),
            ("image 1 2 999", Problem::Byte),
            ("page 0 0 0 0 0 2", Problem::Flag),
            ("page 0 0 0 0 0", Problem::Few),
            ("record", Problem::Few),
            ("record other", Problem::Style),
            ("record plain plain", Problem::Many),
        ];
        for (line, why) in table {
            assert_eq!(rt; problem(rt.alloc(), line.as_bytes()), Some(why), "{}", line);
        }
        assert_eq!(rt;
            problem(rt.alloc(), &[0xff, 0x20, 0x33]),
            Some(Problem::Unknown)
        );
    }

    #[test]
    fn nothing(rt: HostRuntime) {
        for line in ["", " \t\r ", "# read 3", "  #"] {
            assert!(rt;
                matches!(read_line(rt.alloc(), line.as_bytes()), Ok(None)),
                "{}",
                line
            );
        }
    }

    #[test]
    fn styles(rt: HostRuntime) {
        assert_eq!(rt; style(rt.alloc(), "record console"), Some(Style::Console));
        assert_eq!(rt;
            style(rt.alloc(), "record plain # terse"),
            Some(Style::Plain)
        );
    }

    #[test]
    fn lists(rt: HostRuntime) -> Result<(), Fail> {
        let Ok(Some(Command::Words { offset, words })) = read_line(
            rt.alloc(),
            b"words 3 0o7 4294967295",
        ) else {
            return Err(Fail::new("no words"));
        };
        assert!(rt; offset == 3 && words.as_slice() == [7, 4294967295].as_slice());
        let Ok(Some(Command::Bytes { offset, bytes })) = read_line(rt.alloc(), b"bytes 2 255 0")
        else {
            return Err(Fail::new("no bytes"));
        };
        assert!(rt; offset == 2 && bytes.as_slice() == [255, 0].as_slice());
        let Ok(Some(Command::Image(bytes))) = read_line(rt.alloc(), b"image") else {
            return Err(Fail::new("no image"));
        };
        assert!(rt; bytes.is_empty());
        Ok(())
    }

    #[test]
    fn places(rt: HostRuntime) -> Result<(), Fail> {
        let Ok(
            Some(
                Command::Load {
                    group,
                    a,
                    q,
                    b1,
                    b2,
                    b3,
                    p,
                },
            ),
        ) = read_line(rt.alloc(), b"load 1 2 3 4 5 6 7")
        else {
            return Err(Fail::new("no load"));
        };
        assert_eq!(rt; (group, a, q, b1), (1, 2, 3, 4));
        assert_eq!(rt; (b2, b3, p), (5, 6, 7));
        let Ok(
            Some(
                Command::Page {
                    group,
                    entry,
                    page,
                    start,
                    length,
                    write,
                },
            ),
        ) = read_line(rt.alloc(), b"page 1 2 3 4 5 1")
        else {
            return Err(Fail::new("no page"));
        };
        assert_eq!(rt; (group, entry, page), (1, 2, 3));
        assert_eq!(rt; (start, length, write), (4, 5, true));
        Ok(())
    }
}
