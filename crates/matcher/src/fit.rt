// Does a path match a pattern?
ghost use Rattle.std.specs.Prelude.{◌≡◌};
ghost use Rattle.matcher.specs.Matches.{matches};

use crate::form::{check_path, check_pattern};
use glob::fit::fits_formed;

// Does a path match a pattern? False where either is not formed. For callers that have checked neither, as the sprayer's filter.
#[tactic(auto, unfolding(crate::specs::Matches::matches))]
pub fn fits(pattern: &[u8], path: &[u8]) -> bool
    ensures { result ≡ matches pattern.now path.now }
{
    check_pattern(pattern).is_ok() && check_path(path).is_ok() && fits_formed(pattern, path)
}
