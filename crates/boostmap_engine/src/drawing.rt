//! The draw of a place among the live workers. Nothing else uses the generator, and each draw takes
//! one word from it, so the turns that a seed gives depend only on `Pcg32`. `draw` is public and in
//! its own module, so that a test can draw the turns of a run itself.
ghost use Rattle.std.specs.Prelude.{◌≡◌, ◌<◌, ◌%◌};
ghost use Rattle.rand_pcg.specs.Pcg.{pcg32};

use rand_core::utils::NextWord;
use rand_pcg::Pcg32;

/// Draws a place below `live`: the generator's next word modulo `live`. Takes constant time and no
/// memory.
pub fn draw(generator: &mut Pcg32, live: u64) -> u64
    requires { 0 < live }
    ensures place { result ≡ (pcg32 generator.old).0 % live }
    ensures generator { generator.new ≡ (pcg32 generator.old).1 }
{
    u64::from(generator.next_word()) % live
}
