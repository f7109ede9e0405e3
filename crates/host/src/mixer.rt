// The level of a place, for the mixer (02.4).
ghost use Rattle.std.specs.Prelude.{◌≡◌};
ghost use Rattle.level.specs.Level.{level_call};
ghost use Rattle.host.specs.Reports.{level_report};

use crate::reports::LevelReport;
use level::call as level_call;

#[unsafe(no_mangle)]
pub extern "C" fn nearby_level(reach: u32, dist: u64) -> LevelReport
    ensures { result ≡ level_report (level_call reach dist) }
{
    level_call::level(reach, dist).into()
}
