// The number that digits write.
ghost use Rattle.std.specs.Prelude.{◌≡◌, ◌-◌, ◌^◌, min};
ghost use Rattle.sheets.specs.Reading.{worth};

// The number that digits write; one that is too great is the greatest that there can be.
pub(crate) fn worth(digits: &[u8]) -> u32
    ensures { result ≡ min (worth digits.now) (2 ^ 32 - 1) }
{
    // Each step saturates, so that nothing is asked of the digits or of how many they are.
    digits.iter().fold(0_u32, |number, digit| {
        number
            .saturating_mul(10)
            .saturating_add(u32::from(digit.saturating_sub(b'0')))
    })
}
