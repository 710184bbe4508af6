use rows::{Expected, Slip, read_row, there_and_back};
use std::test::Fail;

#[test]
fn good_and_bad_lines(rt: HostRuntime) -> Result<(), Fail> {
    let good: [&[u8]; 4] = [
        b"5 ab",
        b"0 -",
        b"4294967295 acx",
        b"10 abcdefghijklmnopqrstuvwx",
    ];
    for line in good {
        assert!(rt; there_and_back(line)?.as_str().as_bytes() == line);
    }
    let bad: [(&[u8], usize, Expected); 12] = [
        (b"", 0, Expected::Gap),
        (b" a", 0, Expected::Gap),
        (b"05 a", 1, Expected::Space),
        (b"5", 1, Expected::Space),
        (b"5x a", 1, Expected::Space),
        (b"4294967296 a", 9, Expected::Gap),
        (b"99999999999999999999999 a", 9, Expected::Gap),
        (b"5 ", 2, Expected::Letters),
        (b"5  a", 2, Expected::Letters),
        (b"5 -a", 3, Expected::LineEnd),
        (b"5 ba", 3, Expected::LaterLetter),
        (b"5 aay", 3, Expected::LaterLetter),
    ];
    for (line, column, expected) in bad {
        assert_eq!(rt; read_row(line).err(), Some(Slip { column, expected }));
    }
    Ok(())
}
