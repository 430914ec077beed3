//! Whole texts, by their lengths and the sums of their bytes, each sum times 31 before the next byte, that an
//! independent generator gives.
use site_maker::site;
use std::test::Fail;

#[test]
fn sites_have_these_texts(rt: HostRuntime) -> Result<(), Fail> {
    for (number, length, bytes) in [
        (0, 8_087, 15_093_393_658_319_429_288),
        (7, 8_009, 2_402_715_468_925_456_887),
        (4_294_967_295, 8_051, 11_629_358_977_363_886_018),
    ] {
        let text = site(rt.alloc(), number)?;
        let sum = text.iter().fold(0u64, |sum, byte| {
            sum.wrapping_mul(31).wrapping_add(u64::from(*byte))
        });
        assert_eq!(rt; (text.len(), sum), (length, bytes), "{number}");
    }
    Ok(())
}
