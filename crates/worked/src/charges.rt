// The sample.
ghost use Rattle.std.specs.Prelude.{◌≡◌};
ghost use Rattle.tables.specs.Packed.{packed_meaning};
ghost use Rattle.worked.specs.Sample.{sample as sample_charges};

use marks::Width;
use tables::Packed;

// Four bytes to a charge: 1 2 4, 1 2, 2 3, 1 2 4 and 3 5.
const CHARGES: [u8; 20] = [
    0b01011, 0, 0, 0, 0b00011, 0, 0, 0, 0b00110, 0, 0, 0, 0b01011, 0, 0, 0, 0b10100, 0, 0, 0,
];

/// The packed table over the sample, which no rule refuses.
pub fn sample() -> Packed<'static>
    ensures { packed_meaning result.width.number result.rows.now ≡ sample_charges }
{
    let width = Width::new(5).unwrap();
    Packed::new(&CHARGES, width).unwrap()
}
