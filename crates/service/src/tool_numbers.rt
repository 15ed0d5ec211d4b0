ghost use Rattle.std.specs.Prelude.{◌≡◌, ◌<◌, ◌≤◌, MatchResult};
ghost use Rattle.service.specs.declared.refusals.Refusal.TheVariants.{UnknownTool};

use crate::refusals::Refusal;
use crate::tools::TOOLS;

// The number of a tool that the service serves.
#[derive(Clone, Copy)]
pub struct ToolNumber {
    pub(crate) number: u8,
    ghost served: { number < 16 },
}

impl TryFrom<u8> for ToolNumber {
    type Error = Refusal;

    ghost try_from_gives = { λ n r. MatchResult r (λ t. t.number ≡ n) (λ e. (e ≡ UnknownTool) × (16 ≤ n)) };

    fn try_from(number: u8) -> Result<ToolNumber, Refusal> {
        if usize::from(number) < TOOLS {
            Ok(ToolNumber { number })
        } else {
            Err(Refusal::UnknownTool)
        }
    }
}

impl ToolNumber {
    pub(crate) fn index(self) -> usize
        ensures { result ≡ self.number }
    {
        usize::from(self.number)
    }
}
