// Reading a sheet, with its width as C gives it.
ghost use Rattle.std.specs.Prelude.{◌≡◌, length};
ghost use Rattle.panel.specs.Reading.{read_result, read_memory};

use marks::{Refusal, Width};
use sheets::read_sheet;

// Packs a sheet into memory.
pub(crate) fn read(text: &[u8], width: u64, memory: &mut [u8]) -> Result<usize, Refusal>
    ensures answer { result ≡ read_result width (length memory.old) text.now }
    ensures memory { memory.new ≡ read_memory width text.now memory.old }
{
    read_sheet(text, Width::new(width)?, memory)
}
