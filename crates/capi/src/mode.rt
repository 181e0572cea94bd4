// Modes as C writes them.
ghost use Rattle.std.specs.Prelude.{◌≡◌};
ghost use Rattle.capi.specs.Mode.{mode_at};

use plays::mode::Mode;

// The mode at a number: stable at 1, and fair at any other. No `From` of `Mode`, since the numbers are C's, and plays knows nothing of C.
pub(crate) fn mode_at(mode: u8) -> Mode
    ensures { result ≡ mode_at mode }
{
    match mode {
        1 => Mode::Stable,
        _ => Mode::Fair,
    }
}
