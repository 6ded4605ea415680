use crate::drill_text;
use std::test::Fail;

/// The text for twelve tasks, as the documents have it.
const TWELVE: &str = "objects block[16] : 64;
main {
    for i in 0 .. 12 {
        withonly { rd(block[7 * i % 16]); rd_wr(block[(5 * i + 3) % 16]); } do (i) {
            for c in 0 .. 64 {
                block[(5 * i + 3) % 16][c] = (block[(5 * i + 3) % 16][c] + block[7 * i % 16][c]) / 2 + i + c;
            }
        }
    }
}
";

#[test]
fn has_the_number_in_decimal(rt: HostRuntime) -> Result<(), Fail> {
    let text = drill_text(rt.alloc(), 12)?;
    assert_eq!(rt; text.as_slice(), TWELVE.as_bytes());
    Ok(())
}
