// Numbers of 16 bits, low byte first, counted from the start of the file.
ghost use Rattle.std.specs.Prelude.{◌≡◌, ◌+◌, ◌*◌, ◌<◌, length};
ghost use Rattle.file_sections.specs.Numbers.{number_at};

// The number i of a file that has it.
#[tactic(auto, unfolding(crate::specs::Numbers::number_at))]
pub fn number(file: &[u8], i: usize) -> usize
    requires { i * 2 + 1 < length file.now }
    ensures { (result ≡ number_at file.now i) × (result < 65536) }
{
    usize::from(u16::from_le_bytes([file[i * 2], file[i * 2 + 1]]))
}
