use super::*;
use std::test::Fail;

/// A book of 65 lines.
const LONG_BOOK: &[u8] =
    b"1 never a\n2 never a\n3 never a\n4 never a\n5 never a\n6 never a\n7 never a\n8 never a\n\
        9 never a\n10 never a\n11 never a\n12 never a\n13 never a\n14 never a\n15 never a\n16 never a\n\
        17 never a\n18 never a\n19 never a\n20 never a\n21 never a\n22 never a\n23 never a\n24 never a\n\
        25 never a\n26 never a\n27 never a\n28 never a\n29 never a\n30 never a\n31 never a\n32 never a\n\
        33 never a\n34 never a\n35 never a\n36 never a\n37 never a\n38 never a\n39 never a\n40 never a\n\
        41 never a\n42 never a\n43 never a\n44 never a\n45 never a\n46 never a\n47 never a\n48 never a\n\
        49 never a\n50 never a\n51 never a\n52 never a\n53 never a\n54 never a\n55 never a\n56 never a\n\
        57 never a\n58 never a\n59 never a\n60 never a\n61 never a\n62 never a\n63 never a\n64 never a\n\
        65 never a\n";

/// How many lines a text has, and the last number; or its fault's number, line and byte.
fn read(text: &[u8]) -> Result<(usize, u16), (u8, usize, usize)> {
    let lines = read_lines(text).map_err(|fault| (
        fault.refusal().number(),
        fault.line(),
        fault.byte(),
    ))?;
    Ok((
        lines.len(),
        lines.last().map_or(0, |line| line.number.get()),
    ))
}

#[test]
fn each_fault_at_its_place(rt: HostRuntime) -> Result<(), Fail> {
    let cases: [(&[u8], (u8, usize, usize)); 18] = [
        (b"", (21, 1, 0)),
        (b"1 never a\n2 never b", (23, 2, 19)),
        (b"\n", (26, 1, 0)),
        (b"1  never a\n", (24, 1, 2)),
        (b"1 never a \n", (24, 1, 10)),
        (b"0 never a\n", (26, 1, 0)),
        (b"01 never a\n", (26, 1, 0)),
        (b"10000 never a\n", (26, 1, 0)),
        (b"1 never a from 00\n", (26, 1, 15)),
        (b"1 never a from 1000000000\n", (26, 1, 15)),
        (b"1 never a from 1234567890123456789012345\n", (26, 1, 15)),
        (b"1 never a allow 256\n", (26, 1, 16)),
        (b"1 never a or never b or never c\n", (24, 1, 21)),
        (b"1 never a allow 1 or never b\n", (24, 1, 18)),
        (b"1 never a allow 1 x\n", (24, 1, 18)),
        (b"1 after y never a\n", (24, 1, 8)),
        (b"1 hold a least\n", (25, 1, 14)),
        (b"2 never a\n2 nonsense\n", (27, 2, 10)),
    ];
    for (text, fault) in cases {
        assert_eq!(rt; read(text), Err(fault));
    }
    assert_eq!(rt; read(&[b'\n'; 8192]), Err((26, 1, 0)));
    assert_eq!(rt; read(&[b'\n'; 8193]), Err((22, 1, 8192)));
    assert_eq!(rt; read(LONG_BOOK), Err((28, 65, 695)));
    Ok(())
}

#[test]
fn books_and_their_lines(rt: HostRuntime) -> Result<(), Fail> {
    assert_eq!(rt;
        read(
            b"1 after !a hold b under 5 or keep c for 7 since * allow 255\n9999 answer a by x within 999999999\n",
        ),
        Ok((2, 9999))
    );
    assert_eq!(rt;
        read(b"1 never a\n2 never a from 0\n7 hold !* least 10\n8 repeat a within 1\n"),
        Ok((4, 8))
    );
    assert_eq!(rt; line_of(b"ab\n\ncd\ne", 3)?, b"cd".as_slice());
    assert_eq!(rt; line_of(b"ab\n\ncd\ne", 2)?, b"".as_slice());
    assert!(rt; line_of(b"ab\n\ncd\ne", 4).is_err());
    assert!(rt; line_of(b"ab\n", 0).is_err());
    Ok(())
}
